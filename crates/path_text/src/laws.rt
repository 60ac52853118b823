// Laws of labels and of the names of lists. Each is the contract of a function that does nothing.
ghost use Rattle.std.specs.Prelude.{◌≡◌, ◌≢◌, ◌≤◌, ℕ, List, length, slice_index, IsTrue, false};
ghost use Rattle.path_text.specs.Path.{is_path, is_one_part, is_control_path};
ghost use Rattle.path_text.specs.Label.{is_label};
ghost use Rattle.path_text.specs.ListName.{list_name_text};

/// The name of a list is a path of one part, of at most 86 bytes, and no control path.
pub fn list_name_is_path()
    ensures path { (label : List ℕ) (t : ℕ) → IsTrue (is_label label) → IsTrue (is_path (list_name_text label t)) }
    ensures slash { (label : List ℕ) (t : ℕ) → IsTrue (is_label label) → (k : ℕ) → slice_index (list_name_text label t) k ≢ 47 }
    ensures part { (label : List ℕ) (t : ℕ) → IsTrue (is_label label) → IsTrue (is_one_part (list_name_text label t)) }
    ensures control { (label : List ℕ) (t : ℕ) → IsTrue (is_label label) → is_control_path (list_name_text label t) ≡ false }
    ensures short { (label : List ℕ) (t : ℕ) → IsTrue (is_label label) → length (list_name_text label t) ≤ 86 }
{}
