//! Tokens with their marks.

ghost use Rattle.std.specs.Prelude.{◌≡◌};
ghost use Rattle.wat_lang.specs.Grammar.{is_string};
ghost use Rattle.wat_grammar.specs.Views.{mark_of};
ghost use Rattle.wat_tokens.specs.Views.{class_of};
ghost use Rattle.wat_marks.specs.Strings.{reads_string};

use wat_grammar::Mark;
use wat_tokens::Token;

/// A token, and what it is in the module. It is a string exactly where its mark is that of one.
#[derive(Clone, Copy)]
pub struct MarkedToken<'a> {
    pub mark: Mark,
    pub token: Token<'a>,
    pub ghost fits: { is_string (class_of token.class) ≡ reads_string (mark_of mark) },
}
