// A call on the image of a side, whichever side it is.
#![tactic(auto)]

ghost use Rattle.std.specs.Prelude.{◌≡◌, ℕ, List, Option, Some, length};
ghost use Rattle.std.specs.Fn.{FnOnceReturnsAtMut};
ghost use Rattle.calls.specs.After.{After};
ghost use Rattle.image.specs.Keeping.{Keeping, standing};
ghost use Rattle.image.specs.OnImage.{Result, Keeps, Calls, CallsIn};
ghost use Rattle.image.specs.Call.{number_in, told_in, result_as, ReturnsIn, Replies};

use terms::Refusal;

// What is lent as an image is none.
const NO_IMAGE: u32 = 10;

// How a side is kept: the one that stands in bytes, if they are its image, and its image written over them.
pub trait Keeper {
    type Side: Drop;

    ghost keeping: { Keeping Self.Side };

    ghost in_range: { Self.Side → Type 0 };

    fn read(image: &[u8]) -> Option<Self::Side>
        ensures { result ≡ standing keeping image.now };

    fn write(image: &mut [u8], side: &Self::Side)
        requires { length image.old ≡ keeping.size }
        ensures { in_range side.now → (image.new ≡ keeping.image_of side.now) × (standing keeping image.new ≡ Some side.now) };

    ghost standing_in_range: { (s : List ℕ) (p : Self.Side) → standing keeping s ≡ Some p → in_range p };
}

// What a call gave back is kept: the image of the side after it; beside a refusal nothing is touched.
fn keep<K: Keeper, N>(image: &mut [u8], side: &K::Side, done: Result<N, Refusal>) -> Result<N, u32>
    requires { length image.old ≡ K.keeping.size }
    ensures { K.in_range side.now → (num : N → ℕ) (t : ℕ) → Keeps K.keeping (result_as num done side.now) image.old t (number_in result) image.new (told_in num result t) }
{
    match done {
        Ok(told) => {
            K::write(image, side);
            Ok(told)
        }
        Err(refusal) => Err(u32::from(u8::from(refusal))),
    }
}

// A call on the side that stands in an image; where there is no image, nothing is touched.
pub fn call<K: Keeper, N, F: FnOnce(&mut K::Side) -> Result<N, Refusal>>(
    image: &mut [u8],
    f: F,
) -> Result<N, u32>
    requires { F.IsAlwaysCallable f }
    ensures { (num : N → ℕ) (g : K.Side → Result K.Side) → ((p : K.Side) (r : _) (q : K.Side) → FnOnceReturnsAtMut F.FnOnce f p r q → (result_as num r q ≡ g p) × (K.in_range p → K.in_range q)) → (t : ℕ) → Calls K.keeping g image.old t (number_in result) image.new (told_in num result t) }
{
    let Some(mut side) = K::read(image) else {
        return Err(NO_IMAGE);
    };
    let done = f(&mut side);
    keep::<K, N>(image, &side, done)
}

// The same for a call that answers in a lent output.
pub fn call_in<K: Keeper, N, F: FnOnce(&mut K::Side, &mut [u8]) -> Result<N, Refusal>>(
    image: &mut [u8],
    out: &mut [u8],
    f: F,
) -> Result<N, u32>
    requires { F.IsAlwaysCallable f }
    ensures { (num : N → ℕ) (g : K.Side → After K.Side) → ((p : K.Side) (r : _) (q : K.Side) (o : List ℕ) → ReturnsIn F.FnOnce f p out.old r q o → Replies num r q o (g p) × (K.in_range p → K.in_range q)) → (t : ℕ) → CallsIn K.keeping g image.old t out.old (number_in result) image.new (told_in num result t) out.new }
{
    let Some(mut side) = K::read(image) else {
        return Err(NO_IMAGE);
    };
    let done = f(&mut side, out);
    keep::<K, N>(image, &side, done)
}
