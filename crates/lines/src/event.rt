// What one event line says: a plain struct with a kind code, numbers and tables, a rule of the project.
ghost use Rattle.std.specs.Prelude.{◌≡◌, ◌*◌, true, take, pos, slice_index};
ghost use Rattle.lines.specs.Said.{is_kind, number_count, method_count, price_count, point_count, most_numbers, most_accounts, products, Filled, Short, ShortSigned, is_methods};

// The kind is the line's letter, and says what the tables hold:
//   O  numbers: accounts; methods: F or D for each account; prices: one for each product
//   S  prices: the base amount of each product
//   T  numbers: buyer, seller, product, quantity, price
//   C  numbers: account, product, bought number, sold number, quantity
//   D  numbers: account, yen
//   W  numbers: account, yen
//   R  numbers: mark; prices and points: one for each product
//   M  numbers: account
// A place that the kind does not use holds 0.
#[derive(Clone, Copy)]
pub struct Event {
    pub kind: u8,
    pub numbers: [u64; 5],
    pub methods: [u8; 64],
    pub prices: [u64; 16],
    pub points: [i64; 16],
    ghost known: { is_kind kind ≡ true },
    ghost numbered: { Filled 0 Short most_numbers (number_count kind) numbers },
    ghost lettered: { Filled 0 Short most_accounts (method_count kind * slice_index numbers 0) methods },
    ghost methodical: { (method_count kind ≡ 1 → is_methods (slice_index numbers 0) (take (slice_index numbers 0) methods) ≡ true) },
    ghost priced: { Filled 0 Short products (price_count kind) prices },
    ghost pointed: { Filled (pos 0) ShortSigned products (point_count kind) points },
}
