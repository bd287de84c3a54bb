// How much follows a letter.
ghost use Rattle.std.specs.Prelude.{◌≡◌};
ghost use Rattle.lines.specs.Said.{number_count, method_count, price_count, point_count};
ghost use Rattle.lines.specs.Lines.{field_count};

// How many fields of each sort follow a letter, in this order.
#[derive(Clone, Copy)]
pub(crate) struct Counts {
    pub(crate) numbers: usize,
    pub(crate) methods: usize,
    pub(crate) prices: usize,
    pub(crate) points: usize,
}

impl Counts {
    // The kind letter is matched against character literals: a rule of the project.
    pub(crate) fn of(letter: u8) -> Counts
        ensures numbers { result.numbers ≡ number_count letter }
        ensures methods { result.methods ≡ method_count letter }
        ensures prices { result.prices ≡ price_count letter }
        ensures points { result.points ≡ point_count letter }
    {
        let (numbers, methods, prices, points) = match letter as char {
            'O' => (1, 1, 16, 0),
            'S' => (0, 0, 16, 0),
            'T' | 'C' => (5, 0, 0, 0),
            'D' | 'W' => (2, 0, 0, 0),
            'R' => (1, 0, 16, 16),
            _ => (1, 0, 0, 0),
        };
        Counts {
            numbers,
            methods,
            prices,
            points,
        }
    }
}

// How many fields follow a letter in all. A call's kind is its letter, a rule of the project.
pub(crate) fn field_count(letter: u8) -> usize
    ensures { result ≡ field_count letter }
{
    let counts = Counts::of(letter);
    counts.numbers + counts.methods + counts.prices + counts.points
}
