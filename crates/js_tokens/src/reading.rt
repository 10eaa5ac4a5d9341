//! A text cut into its tokens.

ghost use Rattle.std.specs.Prelude.{IfOk, IfErr, Ok};
ghost use Rattle.std.specs.List.{AllByRecursion};
ghost use Rattle.asm_lang_tokens.specs.Text.{Reading, IsReading, IsAt, HasForm, IsJoined};
ghost use Rattle.js_tokens.specs.Views.{placed_tokens, IsFault, Tells};

use crate::fault::TokenFault;
use crate::scanner::{Next, Scanner};
use crate::token::Token;
use std::alloc::Global;

fn all_tokens<'a>(alloc: Global, source: &'a [u8]) -> Result<Vec<Token<'a>>, TokenFault>
    ensures found { IfOk result (λ v. IsReading source.now (Ok (placed_tokens v.items))) }
    ensures fault { IfErr result (λ e. IsFault source.now e) }
{
    let mut found = Vec::new(alloc);
    let mut scanner = Scanner::new(source);
    loop {
        match scanner.next() {
            Next::Token(token) => found.push(token)?,
            Next::End => return Ok(found),
            Next::Fault(fault) => return Err(fault),
        }
    }
}

/// The tokens of a text, each the longest that begins at its place, in order, with gaps round them.
///
/// A gap is a space, tab, vertical tab, form feed, carriage return or line feed, or a comment of either kind. The refusal is the
/// first fault of the text, with its offset in bytes. Each token lends its text from the source.
pub fn tokens<'a>(alloc: Global, source: &'a [u8]) -> Result<Vec<Token<'a>>, TokenFault>
    // They are the tokens of the text, with gaps round them.
    ensures found { IfOk result (λ v. IsReading source.now (Ok (placed_tokens v.items))) }
    // A fault is the first of the text.
    ensures fault { IfErr result (λ e. IsFault source.now e) }
    // What the text is, the answer says, unless memory runs out: so a text has one list of tokens or one fault.
    ensures only { (r : Reading) → IsReading source.now r → Tells r result }
    // Each text is the source's at its place.
    ensures places { IfOk result (λ v. AllByRecursion (IsAt source.now) (placed_tokens v.items)) }
    // Each text has the form of its token's kind.
    ensures forms { IfOk result (λ v. AllByRecursion HasForm (placed_tokens v.items)) }
    // Gaps and the texts, joined, are the source.
    ensures joined { IfOk result (λ v. IsJoined source.now (placed_tokens v.items)) }
{
    all_tokens(alloc, source)
}
