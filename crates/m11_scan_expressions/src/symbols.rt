//! The symbols in an expression. (MACRO-11 Language Reference Manual, "Symbols".)

ghost use Rattle.std.specs.Prelude.{◌≡◌, ◌<◌, [], ◌∷◌, length, MatchOption};
ghost use Rattle.m11_scan.specs.Cutting.{text_between};
ghost use Rattle.m11_scan_expressions.specs.Symbols.{symbols_of};
ghost use Rattle.m11_scan_expressions.specs.Terms.{symbol_in};

use crate::names::Symbol;
use crate::terms::symbol_in;
use m11_scan::{Line, Token};

/// The symbol that a token of a line refers to, if any.
pub fn symbol_of(token: &Token, line: &Line) -> Option<Symbol>
    ensures { result ≡ symbol_in token.now.sort (text_between line.now.text token.now.start token.now.end) }
{
    symbol_in(token.sort, token.text(line))
}

/// The first symbol that these tokens of a line refer to, if there is one, and the tokens after it, which may contain further
/// ones.
pub fn next_symbol<'a>(tokens: &'a [Token], line: &Line) -> Option<(Symbol, &'a [Token])>
    ensures next { MatchOption result (symbols_of line.now.text tokens.now ≡ [])
        (λ read. symbols_of line.now.text tokens.now ≡ read.0 ∷ symbols_of line.now.text read.1.now) }
    ensures shorter { MatchOption result (symbols_of line.now.text tokens.now ≡ []) (λ read. length read.1.now < length tokens.now) }
{
    let mut rest = tokens;
    'tokens: while let [token, others @ ..] = rest {
        rest = others;
        if let Some(symbol) = symbol_of(token, line) {
            return Some((symbol, rest));
        }
    }
    None
}
