//! The place of a name among others.
ghost use Rattle.std.specs.Prelude.{◌≡◌, ◌≤◌, length, map};
ghost use Rattle.program_desc.specs.EntryNames as names_of;

/// The place of a name among these, or how many they are if it is not there.
pub fn file_index(names: &[&str], name: &str) -> usize
    ensures index { result ≡ names_of.file_index (map (λ n. n.now) names.now) name.now }
    ensures few { result ≤ length names.now }
{
    match names {
        [] => 0,
        [first, rest @ ..] => {
            if *first == name {
                0
            } else {
                1 + file_index(rest, name)
            }
        }
    }
}
