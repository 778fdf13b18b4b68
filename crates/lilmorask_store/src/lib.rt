// A store of two slots for programs in C and Rust: the newest image stays as it is while the other slot is written. 0 is done; beside a number
// that is not 0 nothing has changed.
#![tactic(auto)]

ghost use Rattle.std.specs.Prelude.{ℕ, ◌≡◌, ◌+◌, ◌*◌, ◌≤◌, length};
ghost use Rattle.std.proofs.lemmas.List.Edits.{sets};
ghost use Rattle.lilmorask_store.specs.Slot.{slot_tail, longest_image, slot_of, slot_in};
ghost use Rattle.lilmorask_store.specs.Store.{image_at, newest_in, fit, given, newest_image, next_after, next_of, sealed, seals_image};
ghost use Rattle.lilmorask_store.specs.Found.{number_of, number_in, slot_found, newest_found, next_as, seal_number, seal_told};

// How many bytes a slot has beside its image: generation, sum and mark.
const TAIL: usize = 9;

// The mark of a slot that is whole; with any other mark it is off.
const WHOLE: u8 = 165;

// The longest image: the sum goes over it and its generation, and over 65536 bytes at most.
const LONGEST: usize = 65532;

const LAST_GENERATION: u32 = 4294967295;

// Why there is no image, or none can be sealed.
#[derive(Clone, Copy, PartialEq, Eq)]
pub enum Fault {
    Spent,
    NoImage,
    Damaged,
}

impl From<Fault> for u32 {
    ghost from_gives = { λ f n. n ≡ number_of f };

    fn from(f: Fault) -> u32 {
        match f {
            Fault::Spent => 2,
            Fault::NoImage => 10,
            Fault::Damaged => 11,
        }
    }
}

// An image in a slot: where the slot begins, and its generation.
#[derive(Clone, Copy)]
pub struct Stored {
    pub at: usize,
    pub generation: u32,
}

// Whether n bytes are two slots of an image of m bytes.
fn fits(n: usize, m: usize) -> bool
    ensures { result ≡ fit n m }
{
    m <= LONGEST && n == 2 * (m + TAIL)
}

// The generation of a slot, none where it is off: its mark is looked at first, then its sum.
#[tactic(auto, unfolding(crate::specs::Slot::slot_in))]
fn looked_at(slot: &[u8], m: usize) -> Result<Option<u32>, Fault>
    requires { (m ≤ longest_image) × (m + slot_tail ≤ length slot.now) }
    ensures { result ≡ slot_found (slot_in m slot.now) }
{
    if slot[m + 8] != WHOLE {
        return Ok(None);
    }
    let body = m + 4;
    if image::four_at(slot, body) != image::sum(&slot[..body]) {
        return Err(Fault::Damaged);
    }
    Ok(Some(image::four_at(slot, m)))
}

// The newest of both slots, none where nothing is stored; a damaged one is not passed over.
#[tactic(auto, using(crate::proofs::FoundLaws::off_is, crate::proofs::FoundLaws::whole_is, crate::proofs::FoundLaws::damaged_is), unfolding(crate::specs::Store::newest_in))]
fn newest_in(slots: &[u8], m: usize) -> Result<Option<Stored>, Fault>
    requires { (m ≤ longest_image) × (length slots.now ≡ 2 * (m + slot_tail)) }
    ensures { result ≡ newest_found m (newest_in m slots.now) }
{
    let size = m + TAIL;
    let first = looked_at(&slots[..size], m)?;
    let second = looked_at(&slots[size..], m)?;
    match (first, second) {
        (None, None) => Ok(None),
        (Some(g), None) => Ok(Some(Stored {
            at: 0,
            generation: g,
        })),
        (None, Some(h)) => Ok(Some(Stored {
            at: size,
            generation: h,
        })),
        (Some(g), Some(h)) => {
            if g < h {
                Ok(Some(Stored {
                    at: size,
                    generation: h,
                }))
            } else {
                Ok(Some(Stored {
                    at: 0,
                    generation: g,
                }))
            }
        }
    }
}

// The image that stands at a place.
fn copy_image(image: &mut [u8], slots: &[u8], at: usize)
    requires { at + length image.old ≤ length slots.now }
    ensures { image.new ≡ image_at (length image.old) at slots.now }
{
    let end = at + image.len();
    token::put_text(image, 0, &slots[at..end]);
}

// The newest image, into what is lent.
#[tactic(auto, unfolding(crate::specs::Store::newest_image))]
fn give_newest(slots: &[u8], image: &mut [u8]) -> Result<(), Fault>
    ensures { given (number_in result) image.new ≡ newest_image slots.now image.old }
{
    let m = image.len();
    if !fits(slots.len(), m) {
        return Err(Fault::NoImage);
    }
    match newest_in(slots, m)? {
        None => Err(Fault::NoImage),
        Some(stored) => {
            copy_image(image, slots, stored.at);
            Ok(())
        }
    }
}

// The newest image; 10 where nothing is stored, 11 where a slot is damaged.
#[unsafe(no_mangle)]
pub extern "C" fn lil_slots_newest(slots: &[u8], image: &mut [u8]) -> u32
    ensures { given result image.new ≡ newest_image slots.now image.old }
{
    match give_newest(slots, image) {
        Ok(()) => 0,
        Err(fault) => fault.into(),
    }
}

// At a place, one generation later.
fn next_after(at: usize, g: u32) -> Result<Stored, Fault>
    ensures { next_as result ≡ next_after at g }
{
    if g == LAST_GENERATION {
        return Err(Fault::Spent);
    }
    Ok(Stored {
        at,
        generation: g + 1,
    })
}

// The slot that is not the newest, and the next generation.
fn next_in(slots: &[u8], m: usize) -> Result<Stored, Fault>
    requires { (m ≤ longest_image) × (length slots.now ≡ 2 * (m + slot_tail)) }
    ensures { next_as result ≡ next_of m (newest_in m slots.now) }
{
    match newest_in(slots, m)? {
        None => Ok(Stored {
            at: 0,
            generation: 1,
        }),
        Some(newest) => {
            let other = if newest.at == 0 { m + TAIL } else { 0 };
            next_after(other, newest.generation)
        }
    }
}

// A slot, written whole; its sum goes over what was written so far.
fn put_slot(slots: &mut [u8], at: usize, image: &[u8], generation: u32)
    requires { (length image.now ≤ longest_image) × (at + (length image.now + slot_tail) ≤ length slots.old) }
    ensures { slots.new ≡ sets slots.old at (slot_of generation image.now) }
{
    let p = token::put_text(slots, at, image);
    let q = image::put_four(slots, p, generation);
    let sum = image::sum(&slots[at..q]);
    let r = image::put_four(slots, q, sum);
    token::put_byte(slots, r, WHOLE);
}

// The image, sealed into the slot that is not the newest; where that slot begins.
#[tactic(auto, unfolding(crate::specs::Store::seals_image))]
fn seal(slots: &mut [u8], image: &[u8]) -> Result<usize, Fault>
    ensures { (at : ℕ) → sealed (seal_number result) slots.new (seal_told result at) ≡ seals_image slots.old image.now at }
{
    let m = image.len();
    if !fits(slots.len(), m) {
        return Err(Fault::NoImage);
    }
    let next = next_in(slots, m)?;
    put_slot(slots, next.at, image, next.generation);
    Ok(next.at)
}

// The image, sealed into the slot that is not the newest; where that slot begins is told.
#[unsafe(no_mangle)]
pub extern "C" fn lil_slots_seal(slots: &mut [u8], image: &[u8], at: &mut usize) -> u32
    ensures { sealed result slots.new at.new ≡ seals_image slots.old image.now at.old }
{
    match seal(slots, image) {
        Ok(place) => {
            *at = place;
            0
        }
        Err(fault) => fault.into(),
    }
}
