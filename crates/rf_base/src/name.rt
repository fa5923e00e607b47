//! Names of profiles, zones and carriers.

ghost use Rattle.std.specs.Prelude.{◌≡◌, ℕ, ◌≤◌, List, IsTrue, ◌↔◌};
ghost use Rattle.std.specs.List.{list_all};
ghost use Rattle.std.specs.Option.{SomeIff};
ghost use Rattle.std.specs.Cmp.{partial_equiv_from_equiv};
ghost use Rattle.std.specs.Cmp.Lexicographic.{nat_list_eq_equiv};
ghost use Rattle.std.specs.Cmp.Rules.{hashing};
ghost use Rattle.std.specs.Hash as fed;
ghost use Rattle.std.proofs.Common.{rules};
ghost use Rattle.rf_base.specs.Name.{IsName, name_of, same_name};
ghost use Rattle.rf_base.specs.Name as name;

use std::hash::{Hash, Hasher};
use std::marker::Model;
use std::str;

/// 1 to 32 bytes, each from `!` to `~` without `;` and `=`.
#[derive(Clone, Copy)]
pub struct Name {
    len: u8,
    bytes: [u8; 32],
}

impl Model for Name {
    ghost use Rattle.std.specs.Prelude.{◌≡◌, ℕ, List, length, take};
    ghost use Rattle.rf_base.specs.Name.{IsName};
    ghost use Rattle.rf_base.specs.Padded.{padded};

    ghost Value = { List ℕ };

    ghost view = { λ n. take n.len n.bytes };

    ghost invariant = { λ n. IsName (take n.len n.bytes) × (padded 32 (take n.len n.bytes) ≡ n.bytes) × (length (take n.len n.bytes) ≡ n.len) };

    ghost inverse = { λ word. record { len = length word; bytes = padded 32 word } };
}

// Names are compared and hashed by their bytes.
impl PartialEq for Name {
    ghost eq = { same_name };

    ghost laws = { partial_equiv_from_equiv nat_list_eq_equiv };

    fn eq(&self, other: &Name) -> bool {
        self.bytes() == other.bytes()
    }
}

impl Eq for Name {
    ghost laws = { nat_list_eq_equiv };
}

impl Hash for Name {
    ghost hash_input = { fed.slice fed.u8 };

    ghost respects_eq = { Prim.search (hashing, rules) };

    fn hash<H: Hasher>(&self, state: &mut H) {
        self.bytes().hash(state);
    }
}

impl Name {
    const MAX_LEN: usize = 32;

    /// The name that a word is. None exactly where it is none.
    pub fn read(word: &[u8]) -> Option<Name>
        ensures exact { result ≡ name_of word.now }
        ensures iff { SomeIff result (IsName word.now) word.now }
    {
        if !is_name(word) {
            return None;
        }
        let mut bytes = [0; 32];
        bytes[..word.len()].copy_from_slice(word);
        Some(Name {
            len: word.len() as u8,
            bytes,
        })
    }

    /// The name's bytes.
    pub fn bytes(&self) -> &[u8]
        ensures value { result.now ≡ self.now }
        ensures form { IsName self.now }
    {
        &self.bytes[..self.len as usize]
    }

    /// The name as text.
    pub fn text(&self) -> &str
        ensures { result.now ≡ self.now }
    {
        let bytes = &self.bytes[..self.len as usize];
        str::from_utf8(bytes).unwrap()
    }
}

fn is_name(word: &[u8]) -> bool
    ensures value { result ≡ name.is_name word.now }
    ensures form { IsTrue result ↔ IsName word.now }
{
    !word.is_empty() && word.len() <= Name::MAX_LEN && are_name_bytes(word)
}

fn are_name_bytes(word: &[u8]) -> bool
    ensures { result ≡ list_all name.is_name_byte word.now }
{
    word.iter().all(|b| is_name_byte(*b))
}

fn is_name_byte(b: u8) -> bool
    ensures { result ≡ name.is_name_byte b }
{
    b >= b'!' && b <= b'~' && b != b';' && b != b'='
}
