ghost use Rattle.std.specs.Prelude.{◌≡◌, ℕ, ◌+◌, ◌-◌, ◌<◌, ◌≤◌, min, Bool, [], ◌∷◌, ◌++◌, length, take, drop, if◌then◌else◌, nat_lt, slice_set, slice_index_or};
ghost use Rattle.std.specs.List.{filter, remove, slice_get};
ghost use Rattle.records.specs.Lists.{items, spare, room};

// Records, oldest first, at the front of lent places, a rule of the project. The places behind them are free.
#[derive(Drop)]
pub struct RecordList<'a, T> {
    places: &'a mut [T],
    len: usize,
}

fn put_at<T: Copy>(s: &mut [T], i: usize, x: T)
    requires { i < length s.old }
    ensures { s.new ≡ slice_set s.old i x }
{
    s[i] = x;
}

// Takes the record at i out of the first n, and closes the gap. Its own value comes to lie behind the others.
fn close_gap<T: Copy>(s: &mut [T], i: usize, n: usize)
    requires { (i < n) × (n ≤ length s.old) }
    ensures front { take (n - 1) s.new ≡ remove (take n s.old) i }
    ensures back { drop n s.new ≡ drop n s.old }
    ensures len { length s.new ≡ length s.old }
{
    s[i..n].rotate_left(1);
}

// Puts the record of a place at an earlier one. At its own it is not written: most sweeps move few records or none.
fn move_down<T: Copy>(s: &mut [T], place: usize, earlier: usize)
    requires behind { earlier ≤ place }
    requires within { place < length s.old }
    ensures { (x : T) → s.new ≡ slice_set s.old earlier (slice_index_or s.old place x) }
{
    if earlier < place {
        s[earlier] = s[place];
    }
}

// Moves the records that pass to the front, in their order, and tells how many they are. By place, since it writes into
// the slice that it reads.
fn gather<T: Copy, F: Fn(T) -> bool>(s: &mut [T], keep: &F) -> usize
    requires { F.IsAlwaysCallable keep.now }
    ensures kept { (p : T → Bool) → ((x : T) (b : Bool) → F.post keep.now x b → b ≡ p x) → take result s.new ≡ filter p s.old }
    ensures few { result ≤ length s.new }
    ensures len { length s.new ≡ length s.old }
{
    let mut kept = 0;
    for place in 0..s.len() {
        if keep(s[place]) {
            move_down(s, place, kept);
            kept += 1;
        }
    }
    kept
}

impl<'a, T: Copy> RecordList<'a, T> {
    // An empty list over the first of these places: over so many of them, or all where there are fewer.
    pub fn over(places: &'a mut [T], most: usize) -> RecordList<'a, T>
        ensures items { items result ≡ [] }
        ensures spare { spare result ≡ take most places.old }
        ensures room { room result ≡ min most (length places.old) }
    {
        let n = most.min(places.len());
        RecordList {
            places: &mut places[0..n],
            len: 0,
        }
    }

    // How many records there are.
    pub fn count(&self) -> usize
        ensures { result ≡ length (items self.now) }
    {
        self.len.min(self.places.len())
    }

    // How many places there are.
    pub fn places(&self) -> usize
        ensures { result ≡ room self.now }
    {
        let RecordList { places, .. } = self;
        places.len()
    }

    // The records, oldest first.
    pub fn all(&self) -> &[T]
        ensures { result.now ≡ items self.now }
    {
        let n = self.count();
        &self.places[0..n]
    }

    // Record i, if there is one.
    pub fn get(&self, i: usize) -> Option<T>
        ensures { result ≡ slice_get (items self.now) i }
    {
        self.all().get(i).copied()
    }

    // Adds x as the last record, where a place is free, and tells whether one was, as the sets of std do.
    pub fn add(&mut self, x: T) -> bool
        ensures took { result ≡ nat_lt (length (items self.old)) (room self.old) }
        ensures items { items self.new ≡ (if result then items self.old ++ (x ∷ []) else items self.old) }
        ensures spare { spare self.new ≡ (if result then drop 1 (spare self.old) else spare self.old) }
        ensures room { room self.new ≡ room self.old }
    {
        let n = self.count();
        if n < self.places.len() {
            put_at(self.places, n, x);
            self.len = n + 1;
            true
        } else {
            false
        }
    }

    // Puts x in the place of record i, if there is one.
    pub fn replace(&mut self, i: usize, x: T)
        ensures items { items self.new ≡ slice_set (items self.old) i x }
        ensures spare { spare self.new ≡ spare self.old }
        ensures room { room self.new ≡ room self.old }
    {
        if i < self.count() {
            put_at(self.places, i, x);
        }
    }

    // Record i leaves, if there is one, which is told; the others keep their order, and one place more is free. What that
    // place holds is left free; the other free places stay as they were.
    pub fn remove(&mut self, i: usize) -> bool
        ensures took { result ≡ nat_lt i (length (items self.old)) }
        ensures items { items self.new ≡ (if result then remove (items self.old) i else items self.old) }
        ensures spare { (if result then drop 1 (spare self.new) else spare self.new) ≡ spare self.old }
        ensures room { room self.new ≡ room self.old }
    {
        let n = self.count();
        if i < n {
            close_gap(self.places, i, n);
            self.len = n - 1;
            true
        } else {
            false
        }
    }

    // Only the records that pass stay, and keep their order. What the places hold that become free is left free; the other
    // free places stay as they were.
    pub fn retain<F: Fn(T) -> bool>(&mut self, keep: F)
        requires { F.IsAlwaysCallable keep }
        ensures items { (p : T → Bool) → ((x : T) (b : Bool) → F.post keep x b → b ≡ p x) → items self.new ≡ filter p (items self.old) }
        ensures spare { drop (length (items self.old) - length (items self.new)) (spare self.new) ≡ spare self.old }
        ensures room { room self.new ≡ room self.old }
    {
        let n = self.count();
        self.len = gather(&mut self.places[0..n], &keep);
    }

    // All records leave.
    pub fn clear(&mut self)
        ensures items { items self.new ≡ [] }
        ensures spare { spare self.new ≡ items self.old ++ spare self.old }
        ensures room { room self.new ≡ room self.old }
    {
        self.len = 0;
    }
}
