// What tables in range are told by: numbers that stand once, a wording as it is kept, and what the entries in use pass.
#![tactic(auto)]

ghost use Rattle.std.specs.Prelude.{◌≡◌, Bool, ℕ, length};
ghost use Rattle.places.specs.Set.{all_places};
ghost use Rattle.ranges.specs.Range.{is_number, once, each_used, row_of, bytes_kept, is_wording};

use text::Wording;

// The greatest of all numbers that are no card's.
pub const LAST: u32 = 4294967295;

// The greatest number of a station.
pub const LAST_STATION: u8 = 255;

// Whether a number is a fingerprint, an anchor or a session number: 1 to 4294967295.
pub fn is_number(n: u32) -> bool
    ensures { result ≡ is_number n }
{
    n != 0
}

// Whether no number but 0 stands twice in a row.
fn stand_once(row: &[u32]) -> bool
    ensures { result ≡ once row.now }
{
    for (i, n) in row.iter().enumerate() {
        if *n != 0 && row[i + 1..].contains(n) {
            return false;
        }
    }
    true
}

// Whether each entry in use passes a test.
pub fn each_used<T: Copy, F: Fn(T) -> bool>(used: u32, entries: &[T], passes: F) -> bool
    requires { F.IsAlwaysCallable passes }
    ensures { (q : T → Bool) → ((x : T) (r : Bool) → F.post passes x r → r ≡ q x) → result ≡ each_used q used 0 entries.now }
{
    for (i, x) in entries.iter().enumerate() {
        if places::in_use(used, i) && !passes(*x) {
            return false;
        }
    }
    true
}

// Whether a number of the entries in use, if it is not 0, is no other's.
pub fn apart<T: Copy, F: Fn(T) -> u32>(used: u32, entries: &[T], number: F) -> bool
    requires callable { F.IsAlwaysCallable number }
    requires long { length entries.now ≡ all_places }
    ensures { (num : T → ℕ) → ((x : T) (n : ℕ) → F.post number x n → n ≡ num x) → result ≡ once (row_of num used 0 entries.now) }
{
    let mut row = [0u32; places::COUNT];
    for (i, x) in entries.iter().enumerate() {
        row[i] = if places::in_use(used, i) {
            number(*x)
        } else {
            0
        };
    }
    stand_once(&row)
}

// Whether so many bytes keep the text rule, with zeros after them.
fn bytes_kept(s: &[u8], len: usize) -> bool
    ensures { result ≡ bytes_kept len s.now }
{
    len <= s.len() && text::check_text(&s[..len]).is_ok() && s[len..].iter().all(|b| *b == 0)
}

// Whether a wording is one: its text is as it is kept, and every byte is a station.
pub fn is_wording(wording: Wording) -> bool
    ensures { result ≡ is_wording wording }
{
    let text = wording.text;
    bytes_kept(&text.bytes, usize::from(text.len))
}
