// Money: yen and hundredths of a second currency, the kinds of products, and conversion.
#![tactic(auto)]

ghost use Rattle.std.specs.Prelude.{◌≡◌, ℕ, ◌*◌, ◌/◌, ◌≤◌, true, List, ℤ, pos, ◌+ℤ◌, ◌*ℤ◌, ◌≤ℤ◌, unsigned_abs};
ghost use Rattle.std.proofs.Common.{refl, subst, ap};
ghost use Rattle.std.proofs.Math.IntN.{zero-*ℤ};
ghost use Rattle.money.specs.Sums.{down_from};
ghost use Rattle.money.specs.Products.{Priced, Modest, RoundsDown, of_product, row_of, step_worth, converted_by_yen, move_worth, converted, floored, rest_of, exact_yen, exact_cross};
ghost use Rattle.money.specs.Kinds.{kind_of};
ghost use Rattle.money.specs.Moves.{moves_add};
ghost use Rattle.money.specs.Floors.{floor_rounds_down, floored_yen};

use tables::numbered;

// Whole yen.
#[derive(Clone, Copy, PartialEq, Eq, Debug)]
pub struct Yen(pub i64);

// Hundredths of a second currency. Only a conversion makes yen of them.
#[derive(Clone, Copy, PartialEq, Eq, Debug)]
pub struct Hundredths(pub i64);

// A price for each product, in steps.
pub type PriceTable = [u64; 16];

// The latest prices, none of them above 999,999. Prices, points and base amounts are a type each: one type for them would
// carry its limits and its kind of number as parameters, and be no plainer.
#[derive(Clone, Copy, PartialEq, Eq, Debug)]
pub struct Prices {
    pub table: PriceTable,
    ghost priced: { Priced table },
}

// A kind of products, with its own money: what a step of the price is worth in it, and how it is converted into yen.
pub trait Kind {
    type Money: Copy;

    // how much a money is
    ghost counts: { Self.Money → ℤ };

    // what a step is worth for one contract
    ghost step: { Self → ℕ };

    // an amount at the latest prices, exactly in hundred-thousandths of a yen
    ghost exactly: { Self → List ℕ → ℤ → ℤ };

    // and in whole yen
    ghost wholly: { Self → List ℕ → ℤ → ℤ };

    // So much of the kind's money.
    fn money(amount: i64) -> Self::Money
        ensures { counts result ≡ amount };

    // What a step of the price is worth for one contract, in the kind's money.
    fn step_worth(&self) -> u32
        ensures { result ≡ step self.now };

    // An amount in whole yen, never above.
    fn convert(&self, prices: &Prices, money: Self::Money) -> Yen
        requires { Modest (counts money) }
        ensures { result.0 ≡ wholly self.now prices.now.table (counts money) };

    // A move in two stages is worth the sum of both.
    ghost staged: { (k : Self) (from via to : ℕ) → move_worth (step k) from to ≡ move_worth (step k) from via +ℤ move_worth (step k) via to };

    // Nothing converts to nothing.
    ghost nothing: { (k : Self) (prices : List ℕ) → wholly k prices (pos 0) ≡ pos 0 };

    // A conversion is never above the exact amount and less than one yen below it.
    ghost rounded: { (k : Self) (prices : List ℕ) (z : ℤ) → RoundsDown (exactly k prices z) (wholly k prices z) };
}

// Products whose money is yen. Each kind supplies its own step worth, a rule of the project.
#[derive(Clone, Copy)]
pub struct YenKind {
    pub step: u32,
}

// Products whose money is hundredths, converted at the latest price of the product `by`.
#[derive(Clone, Copy)]
pub struct CrossKind {
    pub step: u32,
    pub by: u32,
}

impl Kind for YenKind {
    type Money = Yen;

    ghost counts = { λ m. m.0 };

    ghost step = { λ k. k.step };

    ghost exactly = { λ k prices z. exact_yen z };

    ghost wholly = { λ k prices z. z };

    ghost staged = { λ k. moves_add k.step };

    ghost nothing = { λ k prices. refl };

    ghost rounded = { λ k prices z. subst (λ (y : ℤ). RoundsDown (exact_yen z) y) (floored_yen z) (floor_rounds_down (exact_yen z)) };

    fn money(amount: i64) -> Yen {
        Yen(amount)
    }

    fn step_worth(&self) -> u32 {
        self.step
    }

    fn convert(&self, prices: &Prices, money: Yen) -> Yen {
        money
    }
}

impl Kind for CrossKind {
    type Money = Hundredths;

    ghost counts = { λ m. m.0 };

    ghost step = { λ k. k.step };

    ghost exactly = { λ k prices z. exact_cross (of_product prices k.by) z };

    ghost wholly = { λ k prices z. floored (exact_cross (of_product prices k.by) z) };

    ghost staged = { λ k. moves_add k.step };

    ghost nothing = { λ k prices. ap floored (zero-*ℤ (pos (of_product prices k.by))) };

    ghost rounded = { λ k prices z. floor_rounds_down (exact_cross (of_product prices k.by) z) };

    fn money(amount: i64) -> Hundredths {
        Hundredths(amount)
    }

    fn step_worth(&self) -> u32 {
        self.step
    }

    fn convert(&self, prices: &Prices, money: Hundredths) -> Yen {
        Yen(at_price(money.0, prices.of(self.by)))
    }
}

// A row of the table of products: what a step is worth, and the product that converts, if one does.
#[derive(Clone, Copy)]
pub struct Row {
    pub step: u32,
    pub by: Option<u32>,
}

const PRODUCTS: [Row; 16] = [
    Row { step: 10, by: None },
    Row {
        step: 100,
        by: None,
    },
    Row { step: 10, by: None },
    Row {
        step: 100,
        by: None,
    },
    Row { step: 10, by: None },
    Row {
        step: 100,
        by: None,
    },
    Row { step: 10, by: None },
    Row {
        step: 100,
        by: None,
    },
    Row { step: 10, by: None },
    Row { step: 10, by: None },
    Row {
        step: 100,
        by: Some(1),
    },
    Row {
        step: 1000,
        by: Some(2),
    },
    Row {
        step: 100,
        by: Some(1),
    },
    Row {
        step: 100,
        by: Some(1),
    },
    Row {
        step: 100,
        by: Some(9),
    },
    Row {
        step: 100,
        by: Some(10),
    },
];

// The kind of a product.
#[derive(Clone, Copy)]
pub enum ProductKind {
    Yen(YenKind),
    Cross(CrossKind),
}

// The row of a product; for any other number one that is worth nothing.
fn row_of(product: u32) -> Row
    ensures { result ≡ row_of product }
{
    numbered(&PRODUCTS, product).unwrap_or(Row { step: 0, by: None })
}

// The kind of a product, by the table. Each product that converts is a yen product.
pub fn kind_of(product: u32) -> ProductKind
    ensures kind { result ≡ kind_of product }
    ensures table { converted_by_yen (down_from 16) ≡ true }
{
    let Row { step, by } = row_of(product);
    match by {
        None => ProductKind::Yen(YenKind { step }),
        Some(by) => ProductKind::Cross(CrossKind { step, by }),
    }
}

// The price of a product in a table, and 0 where there is no such product.
pub fn price_of(prices: &PriceTable, product: u32) -> u64
    ensures { result ≡ of_product prices.now product }
{
    numbered(prices, product).unwrap_or(0)
}

// A product of two numbers that fits.
pub fn times(x: i64, y: i64) -> i64
    requires { unsigned_abs x * unsigned_abs y ≤ 9000000000000000000 }
    ensures product { result ≡ x *ℤ y }
    ensures size { unsigned_abs result ≡ unsigned_abs x * unsigned_abs y }
{
    x * y
}

// Whole hundred thousands of h, never above.
fn wholes(h: i64) -> i64
    ensures { result ≡ floored h }
{
    h.div_euclid(100_000)
}

// What they leave of h.
fn rest(h: i64) -> i64
    ensures { result ≡ pos (rest_of h) }
{
    h.rem_euclid(100_000)
}

// Hundred thousands of n.
fn part(n: i64) -> i64
    requires { pos 0 ≤ℤ n }
    ensures { result ≡ pos (unsigned_abs n / 100000) }
{
    n / 100_000
}

// The greatest whole number not above h × price ÷ 100,000. Only the whole product could pass 64 bits,
// so h is split into hundred thousands and a rest. `as`: std has no `From` from u64 to i64. A price's limit is asked here and
// in the two moves below, not held by a type: a lot keeps its own price as a plain number, since the definitions make lots.
fn at_price(h: i64, price: u64) -> i64
    requires modest { Modest h }
    requires price { price ≤ 999999 }
    ensures { result ≡ floored (h *ℤ pos price) }
{
    let price = price as i64;
    times(wholes(h), price) + part(times(rest(h), price))
}

// What a move of the price is worth for one contract, in the kind's money. `as`: std has no `From` from u64 to i64.
fn moved<K: Kind>(kind: &K, from: u64, to: u64) -> K::Money
    requires from { from ≤ 999999 }
    requires to { to ≤ 999999 }
    ensures { K.Kind.counts result ≡ move_worth (K.Kind.step kind.now) from to }
{
    K::money(times(i64::from(kind.step_worth()), to as i64 - from as i64))
}

// What a move of the price is worth for one contract, in the product's money. Each kind has a money type of its own, so that
// no one arm serves both.
pub fn worth_of_move(product: u32, from: u64, to: u64) -> i64
    requires from { from ≤ 999999 }
    requires to { to ≤ 999999 }
    ensures { result ≡ move_worth (step_worth product) from to }
{
    match kind_of(product) {
        ProductKind::Yen(kind) => moved(&kind, from, to).0,
        ProductKind::Cross(kind) => moved(&kind, from, to).0,
    }
}

impl Prices {
    // The latest price of a product, and 0 where there is no such product.
    pub fn of(&self, product: u32) -> u64
        ensures price { result ≡ of_product self.now.table product }
        ensures most { result ≤ 999999 }
    {
        price_of(&self.table, product)
    }

    // An amount of a kind's money in whole yen.
    fn in_yen<K: Kind>(&self, kind: &K, amount: i64) -> Yen
        requires { Modest amount }
        ensures { result.0 ≡ K.Kind.wholly kind.now self.now.table amount }
    {
        kind.convert(self, K::money(amount))
    }

    // An amount of a product's money in whole yen, never above. The arms are alike but for the kind's type.
    pub fn to_yen(&self, product: u32, amount: i64) -> Yen
        requires { Modest amount }
        ensures { result.0 ≡ converted self.now.table product amount }
    {
        match kind_of(product) {
            ProductKind::Yen(kind) => self.in_yen(&kind, amount),
            ProductKind::Cross(kind) => self.in_yen(&kind, amount),
        }
    }
}
