// Laws of what a stop may leave of a drive. Each is the contract of a function that does nothing.
ghost use Rattle.std.specs.Prelude.{◌≡◌, ℕ, List, [], ◌∷◌, ◌++◌, true, false, Ok};
ghost use Rattle.bay_core.specs.declared.event.Event.{Event};
ghost use Rattle.bay_core.specs.declared.event.Event.TheVariants.{Sync};
ghost use Rattle.bay_core.specs.Map.{Map};
ghost use Rattle.bay_core.specs.Replay.{calls_on, reads};
ghost use Rattle.bay_core.specs.World.{World, Honest};
ghost use Rattle.bay_core.specs.Attach.{Attaches};
ghost use Rattle.bay_core.specs.Left.{LeftBy, Left, IsSettled, IsPrefix};
ghost use Rattle.bay_core.specs.Looks.{IsUntouched};

/// What is left of a drive follows from the calls on that drive alone, and so does what is read of it.
pub fn left_by_its_calls()
    ensures left { (m : Map) (A B : List Event) (d : ℕ) (I : Map) → calls_on d A ≡ calls_on d B → Left m A d I → Left m B d I }
    ensures reads { (m : Map) (A B : List Event) (d : ℕ) → calls_on d A ≡ calls_on d B → reads m A d ≡ reads m B d }
{}

/// What is read of a drive is one of the maps left of it.
pub fn read_is_left()
    ensures { (m : Map) (L : List Event) (d : ℕ) → Left m L d (reads m L d) }
{}

/// A stop within a call leaves nothing that is not left after it, unless it is a sync that answered Ok. So a change may
/// also be left undone, and a sync that failed settles nothing.
pub fn left_within()
    ensures { (m : Map) (L : List Event) (e : Event) (d : ℕ) (I : Map) → (e ≡ Sync d true → ⊥) → Left m L d I → Left m (L ++ e ∷ []) d I }
{}

/// A drive is settled before any call on it, and after a sync that answered Ok. One that failed leaves nothing more.
pub fn settled_after_sync()
    ensures none { (m : Map) (L : List Event) (d : ℕ) → calls_on d L ≡ [] → IsSettled m L d }
    ensures ok { (m : Map) (L : List Event) (d : ℕ) → IsSettled m (L ++ Sync d true ∷ []) d }
    ensures failed { (m : Map) (L : List Event) (d : ℕ) (I : Map) → Left m (L ++ Sync d false ∷ []) d I → Left m L d I }
{}

/// What is left after two runs of calls is what the second leaves of a map that the first left.
pub fn left_in_turn()
    ensures then { (m : Map) (A B : List Event) (d : ℕ) (I : Map) → Left m (A ++ B) d I → LeftBy (calls_on d B) (reads m A d) (Left m A d) I }
    ensures back { (m : Map) (A B : List Event) (d : ℕ) (I : Map) → LeftBy (calls_on d B) (reads m A d) (Left m A d) I → Left m (A ++ B) d I }
{}

/// A drive that was just attached is settled, and reads as it began.
pub fn settled_when_attached()
    ensures { (place : List ℕ) (d : ℕ) (old new : World) (m : Map) (L : List Event) → Attaches place (Ok d) old new → Honest new d m L → (reads m L d ≡ m) × IsSettled m L d }
{}

/// The calls up to a moment before another moment are calls up to it.
pub fn prefix_of_prefix()
    ensures { (A B L : List Event) → IsPrefix A B → IsPrefix B L → IsPrefix A L }
{}

/// A drive on which no change and no barrier was called stays as it was: it reads as before, just the same maps are left
/// of it, and it is settled if it was. Where there is none on any drive, there is none on this one.
pub fn untouched_stays()
    ensures reads { (m : Map) (L since : List Event) (d : ℕ) → IsUntouched (calls_on d since) → reads m (L ++ since) d ≡ reads m L d }
    ensures left { (m : Map) (L since : List Event) (d : ℕ) (I : Map) → IsUntouched (calls_on d since) → Left m (L ++ since) d I → Left m L d I }
    ensures back { (m : Map) (L since : List Event) (d : ℕ) (I : Map) → IsUntouched (calls_on d since) → Left m L d I → Left m (L ++ since) d I }
    ensures settled { (m : Map) (L since : List Event) (d : ℕ) → IsUntouched (calls_on d since) → IsSettled m L d → IsSettled m (L ++ since) d }
    ensures each_drive { (L : List Event) (d : ℕ) → IsUntouched L → IsUntouched (calls_on d L) }
{}
