// The set of the places in use, one bit for each place.
#![tactic(auto)]

ghost use Rattle.std.specs.Prelude.{◌≡◌, ◌<◌, Bool, Option, length, IfSome};
ghost use Rattle.places.specs.Act.{find, each, put_at, slot, table};
ghost use Rattle.places.specs.Tells.{Tells, Makes};
ghost use Rattle.places.specs.Set.{all_places, in_use, lowest_free, with_place, without_place};

// How many places a side has.
pub const COUNT: usize = 32;

// Whether place i is in the set.
pub fn in_use(used: u32, i: usize) -> bool
    ensures { result ≡ in_use used i }
{
    if COUNT <= i {
        return false;
    }
    (used >> i) % 2 == 1
}

// The lowest place that is not in the set.
pub fn lowest_free(used: u32) -> Option<usize>
    ensures { result ≡ lowest_free used }
{
    if u32::count_ones(used) as usize == COUNT {
        return None;
    }
    Some(u32::trailing_zeros(!used) as usize)
}

// The set with place i.
pub fn taken(used: u32, i: usize) -> u32
    requires { i < all_places }
    ensures { result ≡ with_place used i }
{
    used | (1 << i)
}

// The set without place i.
pub fn freed(used: u32, i: usize) -> u32
    ensures { result ≡ without_place used i }
{
    if in_use(used, i) {
        used - (1 << i)
    } else {
        used
    }
}

// The first place in use whose entry passes a test.
pub fn first_in_use<T, F: Fn(&T) -> bool>(used: u32, entries: &[T], passes: F) -> Option<usize>
    requires { F.IsAlwaysCallable passes }
    ensures found { (q : T → Bool) → Tells F.Fn passes q → result ≡ find q (record { used = used; places = entries.now }) }
    ensures inside { IfSome result (λ i. i < length entries.now) }
{
    for (i, x) in entries.iter().enumerate() {
        if in_use(used, i) && passes(x) {
            return Some(i);
        }
    }
    None
}

// What becomes of place i: it is free, or holds an entry.
pub fn put<T: Copy>(used: &mut u32, entries: &mut [T], i: usize, becomes: Option<T>)
    requires inside { i < all_places }
    requires long { length entries.old ≡ all_places }
    ensures { table used.new entries.new ≡ put_at (table used.old entries.old) i (slot becomes) }
{
    match becomes {
        Some(x) => {
            *used = taken(*used, i);
            entries[i] = x;
        }
        None => {
            *used = freed(*used, i);
        }
    }
}

// Each entry in use that passes a test becomes another, or its place is free.
pub fn act_on_each<T: Copy, P: Fn(&T) -> bool, F: Fn(&T) -> Option<T>>(
    used: &mut u32,
    entries: &mut [T],
    passes: P,
    becomes: F,
)
    requires tests { P.IsAlwaysCallable passes }
    requires makes { F.IsAlwaysCallable becomes }
    requires long { length entries.old ≡ all_places }
    ensures { (d : T) (q : T → Bool) (f : T → Option T) → Tells P.Fn passes q → Makes F.Fn becomes f → table used.new entries.new ≡ each d q (λ x. slot (f x)) (table used.old entries.old) }
{
    for i in 0..COUNT {
        if in_use(*used, i) && passes(&entries[i]) {
            let after = becomes(&entries[i]);
            put(used, entries, i, after);
        }
    }
}
