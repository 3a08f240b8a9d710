//! Names with a dot.

ghost use Rattle.std.specs.Prelude.{◌≡◌};
ghost use Rattle.idl_include.specs.Names.{is_dotted, qualifier, bare_name};

/// Whether a name has a `.`.
pub fn is_dotted(name: &[u8]) -> bool
    ensures { result ≡ is_dotted name.now }
{
    name.contains(&b'.')
}

/// What stands before the last `.` of a name, and what stands behind it; all of it behind where there is none.
pub fn split_last_dot(name: &[u8]) -> (&[u8], &[u8])
    ensures before { result.0.now ≡ qualifier name.now }
    ensures behind { result.1.now ≡ bare_name name.now }
{
    let mut at = name.len();
    while at > 0 {
        if name[at - 1] == b'.' {
            return (name.split_at(at - 1).0, name.split_at(at).1);
        }
        at -= 1;
    }
    (name.split_at(0).0, name)
}
