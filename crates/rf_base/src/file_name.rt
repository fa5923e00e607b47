//! Names of files.

ghost use Rattle.std.specs.Prelude.{◌≡◌, ℕ, ◌≤◌, List, IsTrue, ◌↔◌};
ghost use Rattle.std.specs.List.{list_all};
ghost use Rattle.std.specs.Option.{SomeIff};
ghost use Rattle.rf_base.specs.FileName.{IsFileName, file_name_of};
ghost use Rattle.rf_base.specs.FileName as file_name;

use std::marker::Model;
use std::str;

/// The name of a file of the working folder: 1 to 255 bytes, each from `!` to `~`.
#[derive(Clone, Copy)]
pub struct FileName {
    len: u8,
    bytes: [u8; 255],
}

impl Model for FileName {
    ghost use Rattle.std.specs.Prelude.{◌≡◌, ℕ, List, length, take};
    ghost use Rattle.rf_base.specs.FileName.{IsFileName};
    ghost use Rattle.rf_base.specs.Padded.{padded};

    ghost Value = { List ℕ };

    ghost view = { λ n. take n.len n.bytes };

    ghost invariant = { λ n. IsFileName (take n.len n.bytes) × (padded 255 (take n.len n.bytes) ≡ n.bytes) × (length (take n.len n.bytes) ≡ n.len) };

    ghost inverse = { λ word. record { len = length word; bytes = padded 255 word } };
}

impl FileName {
    const MAX_LEN: usize = 255;

    /// The file name that a word is. None exactly where it is none.
    pub fn read(word: &[u8]) -> Option<FileName>
        ensures exact { result ≡ file_name_of word.now }
        ensures iff { SomeIff result (IsFileName word.now) word.now }
    {
        if !is_file_name(word) {
            return None;
        }
        let mut bytes = [0; 255];
        bytes[..word.len()].copy_from_slice(word);
        Some(FileName {
            len: word.len() as u8,
            bytes,
        })
    }

    /// The file name as text.
    pub fn text(&self) -> &str
        ensures value { result.now ≡ self.now }
        ensures form { IsFileName self.now }
    {
        let bytes = &self.bytes[..self.len as usize];
        str::from_utf8(bytes).unwrap()
    }
}

fn is_file_name(word: &[u8]) -> bool
    ensures value { result ≡ file_name.is_file_name word.now }
    ensures form { IsTrue result ↔ IsFileName word.now }
{
    !word.is_empty() && word.len() <= FileName::MAX_LEN && are_visible(word)
}

fn are_visible(word: &[u8]) -> bool
    ensures { result ≡ list_all file_name.is_visible word.now }
{
    word.iter().all(|b| *b >= b'!' && *b <= b'~')
}
