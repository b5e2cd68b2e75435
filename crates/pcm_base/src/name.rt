// A name of the shelf.
ghost use Rattle.std.specs.Prelude.{◌≡◌, true};
ghost use Rattle.std.specs.List.{list_all};
ghost use Rattle.pcm_base.specs.Name.{is_name, is_name_byte_of, option_if};

use arrayvec::ArrayVec;
use std::marker::Model;

/// The name of a file on the shelf: 1 to 64 bytes of `a` to `z`, `0` to `9`, `.`, `_` and `-`, the first not `.`. This
/// project's own. Contracts see the list.
#[derive(Drop)]
pub struct Name {
    items: ArrayVec<u8, 64>,
}

impl Model for Name {
    ghost use Rattle.std.specs.Prelude.{List, ℕ, ◌≡◌, true};
    ghost use Rattle.pcm_base.specs.Name.{is_name};

    ghost Value = { List ℕ };

    ghost view = { λ n. n.items.items };

    ghost invariant = { λ n. is_name n.items.items ≡ true };
}

fn is_name_byte(b: u8) -> bool
    ensures { result ≡ is_name_byte_of b }
{
    matches!(b, b'a'..=b'z' | b'0'..=b'9' | b'.' | b'_' | b'-')
}

fn all_name_bytes(bytes: &[u8]) -> bool
    ensures { result ≡ list_all is_name_byte_of bytes.now }
{
    bytes.iter().all(|b| is_name_byte(*b))
}

fn is_name_text(bytes: &[u8]) -> bool
    ensures { result ≡ is_name bytes.now }
{
    !bytes.is_empty() && bytes.len() <= 64 && bytes[0] != b'.' && all_name_bytes(bytes)
}

impl Name {
    /// These bytes as a name; None exactly where they are none.
    pub fn of(bytes: &[u8]) -> Option<Name>
        ensures { result ≡ option_if (is_name bytes.now) bytes.now }
    {
        if !is_name_text(bytes) {
            return None;
        }
        let mut items: ArrayVec<u8, 64> = ArrayVec::new();
        match items.try_extend_from_slice(bytes) {
            Ok(()) => Some(Name { items }),
            Err(_) => None,
        }
    }

    /// The bytes of the name.
    pub fn as_slice(&self) -> &[u8]
        ensures value { result.now ≡ self.now }
        ensures name { is_name self.now ≡ true }
    {
        self.items.as_slice()
    }
}
