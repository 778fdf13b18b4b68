// The store of two slots for programs in C and Rust: the calls of lilmorask_store, exported.
#![tactic(auto)]

ghost use Rattle.std.specs.Prelude.{◌≡◌};
ghost use Rattle.lilmorask_store.specs.Store.{given, newest_image, sealed, seals_image};

// The newest image; 10 where nothing is stored, 11 where a slot is damaged.
#[unsafe(no_mangle)]
pub extern "C" fn lil_slots_newest(slots: &[u8], image: &mut [u8]) -> u32
    ensures { given result image.new ≡ newest_image slots.now image.old }
{
    lilmorask_store::lil_slots_newest(slots, image)
}

// The image, sealed into the slot that is not the newest; where that slot begins is told.
#[unsafe(no_mangle)]
pub extern "C" fn lil_slots_seal(slots: &mut [u8], image: &[u8], at: &mut usize) -> u32
    ensures { sealed result slots.new at.new ≡ seals_image slots.old image.now at.old }
{
    lilmorask_store::lil_slots_seal(slots, image, at)
}
