// The one sum over the figures of an account, a product and a column.
ghost use Rattle.std.specs.Prelude.{◌≡◌, ℕ, ◌*◌, ◌≤◌, length, unsigned_abs};
ghost use Rattle.std.specs.List.{AllByRecursion};
ghost use Rattle.records.specs.declared.sum.Told.{Told};
ghost use Rattle.records.specs.Sum.{summed, share, Within};

// What every kind of record tells: whose it is, in which product, its column and its figure. A column is a number, a rule of
// the project: the one sum serves any kind of record, whatever its columns are.
#[derive(Clone, Copy)]
pub struct Told {
    pub account: u32,
    pub product: u32,
    pub column: u32,
    pub figure: i64,
}

// A record of a list. It tells, a rule of the project, and is not converted: it stays a lot or a slip.
pub trait Record {
    ghost told: { Self → Told };

    fn tell(&self) -> Told
        ensures { result ≡ told self.now };
}

// A record's figure where account, product and column, a number as above, are those asked for, else 0.
fn share_of(t: Told, account: u32, product: u32, column: u32) -> i64
    ensures { result ≡ share account product column t }
{
    if t.account == account && t.product == product && t.column == column {
        t.figure
    } else {
        0
    }
}

// The sum of the figures of an account, a product and a column, a number as above.
pub fn total<T: Record>(records: &[T], account: u32, product: u32, column: u32) -> i64
    requires { (length records.now ≤ 8192) × (AllByRecursion (λ x. Within (T.told x).figure) records.now) }
    ensures sum { result ≡ summed T.told account product column records.now }
    ensures most { unsigned_abs result ≤ 1000000000000 * length records.now }
{
    let mut sum: i64 = 0;
    for record in records {
        sum += share_of(record.tell(), account, product, column);
    }
    sum
}
