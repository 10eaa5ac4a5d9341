// The labels round a statement.

ghost use Rattle.std.specs.Prelude.{◌≡◌, true, not, length, take, IfOk, [], ◌∷◌};
ghost use Rattle.sem_words.specs.Lists.{text_bytes};
ghost use Rattle.std.proofs.Props.{props};
ghost use Rattle.asm_tree.specs.Views.{texts_view};
ghost use Rattle.asm_lang_valid.specs.Typing as typing;
ghost use Rattle.asm_validate_labels.specs.Open.{labels_in, AreDistinct};

use indexmap::IndexMap;
use key_hashes::KeyHashes;
use sem_words::Text;
use std::alloc::{AllocError, Global};

/// The labels that are open, from the outermost to the innermost, each with whether it is one of a loop.
#[derive(Drop)]
pub struct Labels<'a> {
    open: IndexMap<&'a [u8], bool, KeyHashes>,
    ghost distinct: { AreDistinct open.entries } by { Prim.hlevel props },
}

impl<'a> Labels<'a> {
    /// No labels.
    pub fn new(alloc: Global, hashes: KeyHashes) -> Labels<'a>
        ensures { labels_in result.open.entries ≡ [] }
    {
        Labels {
            open: IndexMap::with_hasher(alloc, hashes),
        }
    }

    /// How many there are.
    pub fn len(&self) -> usize
        ensures { result ≡ length self.now.open.entries }
    {
        self.open.len()
    }

    /// Adds a label, unless it is there.
    fn add(&mut self, name: &'a Text, of_loop: bool) -> Result<bool, AllocError>
        ensures is_new { IfOk result (λ b. b ≡ not (typing.has_label (labels_in self.old.open.entries) (text_bytes name.now))) }
        ensures added { IfOk result (λ b. b ≡ true → labels_in self.new.open.entries ≡ record { text = text_bytes name.now; of_loop = of_loop } ∷ labels_in self.old.open.entries) }
        ensures front { IfOk result (λ b. b ≡ true → take (length self.old.open.entries) self.new.open.entries ≡ self.old.open.entries) }
    {
        let before = self.open.insert(name.as_bytes(), of_loop)?;
        match before {
            None => Ok(true),
            Some(_) => Ok(false),
        }
    }

    /// Whether a label is open.
    pub fn has(&self, name: &Text) -> bool
        ensures { result ≡ typing.has_label (labels_in self.now.open.entries) (text_bytes name.now) }
    {
        match self.open.get(name.as_bytes()) {
            Some(_) => true,
            None => false,
        }
    }

    /// Whether one of a loop is.
    pub fn has_loop(&self, name: &Text) -> bool
        ensures { result ≡ typing.has_loop (labels_in self.now.open.entries) (text_bytes name.now) }
    {
        match self.open.get(name.as_bytes()) {
            Some(of_loop) => *of_loop,
            None => false,
        }
    }

    /// Closes all labels but the first ones.
    pub fn close(&mut self, count: usize)
        ensures { self.new.open.entries ≡ take count self.old.open.entries }
    {
        self.open.truncate(count);
    }
}

/// Opens the labels of a statement, and says whether each is new. Those that were open stay in front.
pub fn open_labels<'a>(
    labels: &mut Labels<'a>,
    names: &'a [Text],
    of_loop: bool,
) -> Result<bool, AllocError>
    ensures are_new { IfOk result (λ b. b ≡ typing.new_labels (texts_view names.now) (labels_in labels.old.open.entries)) }
    ensures opened { IfOk result (λ b. b ≡ true → labels_in labels.new.open.entries ≡ typing.labels_in of_loop (texts_view names.now) (labels_in labels.old.open.entries)) }
    ensures front { IfOk result (λ b. b ≡ true → take (length labels.old.open.entries) labels.new.open.entries ≡ labels.old.open.entries) }
{
    for name in names {
        if !labels.add(name, of_loop)? {
            return Ok(false);
        }
    }
    Ok(true)
}
