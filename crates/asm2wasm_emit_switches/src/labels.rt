//! The labels that are open round a statement.
ghost use Rattle.std.specs.Prelude.{◌≡◌, ◌<◌, ◌^◌};
ghost use Rattle.asm_tree.specs.Views.{text_option, texts_view};
ghost use Rattle.asm_lang_valid.specs.Scope as scope;
ghost use Rattle.asm2wasm_translation.specs.Bodies as code;
ghost use Rattle.asm2wasm_emit_switches.specs.Labels.{run_length, is_met, labels_view, meant};

use sem_words::Text;

/// What stands open.
#[derive(Clone, Copy)]
pub enum Open<'l> {
    /// So many in a row that no statement names.
    Plainly(usize),
    /// What a break leaves.
    Breakable,
    /// A statement with these labels.
    NamedEnd(&'l [Text]),
    /// The body of a loop with these labels.
    NextTurn(&'l [Text]),
}

/// The labels that are open, the innermost first.
#[derive(Clone, Copy)]
pub enum Labels<'l> {
    Nothing,
    Inside(Open<'l>, &'l Labels<'l>),
}

/// A statement that leaves others.
#[derive(Clone, Copy)]
pub enum Branch {
    Break,
    Continue,
}

impl<'l> Open<'l> {
    // How many labels these are.
    fn count(&self) -> usize
        ensures { result ≡ run_length self.now }
    {
        match self {
            Open::Plainly(count) => *count,
            Open::Breakable | Open::NamedEnd(_) | Open::NextTurn(_) => 1,
        }
    }

    // Whether one of them is meant.
    fn is_met(&self, branch: Branch, name: &Option<Text>) -> bool
        ensures { result ≡ is_met (meant branch (text_option name.now)) self.now }
    {
        match branch {
            Branch::Break => self.is_broken(name),
            Branch::Continue => self.is_continued(name),
        }
    }

    fn is_broken(&self, name: &Option<Text>) -> bool
        ensures { result ≡ is_met (meant Branch.Break (text_option name.now)) self.now }
    {
        match self {
            Open::Breakable => name.is_none(),
            Open::NamedEnd(names) => match name {
                None => false,
                Some(name) => is_among(name.as_bytes(), names),
            },
            Open::Plainly(_) | Open::NextTurn(_) => false,
        }
    }

    fn is_continued(&self, name: &Option<Text>) -> bool
        ensures { result ≡ is_met (meant Branch.Continue (text_option name.now)) self.now }
    {
        match self {
            Open::NextTurn(names) => match name {
                None => true,
                Some(name) => is_among(name.as_bytes(), names),
            },
            Open::Plainly(_) | Open::Breakable | Open::NamedEnd(_) => false,
        }
    }
}

impl<'l> Labels<'l> {
    /// The number of the label that a break leaves.
    pub fn break_label(&self, name: &Option<Text>) -> usize
        requires { code.break_label (labels_view self.now) (text_option name.now) < 2 ^ 32 }
        ensures { result ≡ code.break_label (labels_view self.now) (text_option name.now) }
    {
        self.inside(Branch::Break, name)
    }

    /// .. a continue.
    pub fn continue_label(&self, name: &Option<Text>) -> usize
        requires { code.continue_label (labels_view self.now) (text_option name.now) < 2 ^ 32 }
        ensures { result ≡ code.continue_label (labels_view self.now) (text_option name.now) }
    {
        self.inside(Branch::Continue, name)
    }

    // How many stand inside the one that is meant; all where there is none.
    fn inside(&self, branch: Branch, name: &Option<Text>) -> usize
        requires { code.labels_inside (meant branch (text_option name.now)) (labels_view self.now) < 2 ^ 32 }
        ensures { result ≡ code.labels_inside (meant branch (text_option name.now)) (labels_view self.now) }
    {
        let mut inside = 0;
        let mut labels = self;
        while let Labels::Inside(open, outer) = labels {
            if open.is_met(branch, name) {
                return inside;
            }
            inside += open.count();
            labels = outer;
        }
        inside
    }
}

fn is_among(name: &[u8], names: &[Text]) -> bool
    ensures { result ≡ scope.is_in name.now (texts_view names.now) }
{
    for other in names {
        if other.as_bytes() == name {
            return true;
        }
    }
    false
}
