// From a text to its tree, and to its typed tree.

ghost use Rattle.std.specs.Prelude.{◌≡◌};
ghost use Rattle.sx_driver.specs.Faults.{Parses, Types, lexical_of, syntactic_of};

use crate::fault::{CompileStop, Fault};
use crate::typing::refused;
use std::alloc::Global;
use sx_check_decl::check;
use sx_lexer::{LexStop, lex};
use sx_parse_decl::ParseStop;
use sx_parser::parse;
use sx_tree::Tree;
use sx_typed::Typed;

/// The greatest size of a text, in bytes.
const MOST_BYTES: usize = 262_144;

/// The tree of a text, or the first rule that it breaks.
pub fn tree_of(alloc: Global, text: &[u8]) -> Result<Tree, CompileStop>
    ensures { Parses text.now result }
{
    if text.len() > MOST_BYTES {
        return Err(CompileStop::Refused(Fault::TooLong));
    }
    match lex(alloc, text) {
        Ok(tokens) => match parse(alloc, &tokens) {
            Ok(tree) => Ok(tree),
            Err(stop) => Err(syntactic(stop)),
        },
        Err(stop) => Err(lexical(stop)),
    }
}

/// The typed tree of a text, or the first rule that it breaks, up to the globals that are reached
/// too late.
pub fn typed_of(alloc: Global, text: &[u8]) -> Result<Typed, CompileStop>
    ensures { Types text.now result }
{
    let tree = tree_of(alloc, text)?;
    match check(alloc, &tree) {
        Ok(typed) => Ok(typed),
        Err(stop) => Err(refused(alloc, text, &tree, stop)),
    }
}

/// Why a text has no tree, as a refusal.
fn syntactic(stop: ParseStop) -> CompileStop
    ensures { result ≡ syntactic_of stop }
{
    match stop {
        ParseStop::Syntax(at) => CompileStop::Refused(Fault::Syntax(at)),
        ParseStop::TooDeep(at) => CompileStop::Refused(Fault::TooDeep(at)),
        ParseStop::NoMemory => CompileStop::NoMemory,
    }
}

/// Why a text has no tokens, as a refusal.
fn lexical(stop: LexStop) -> CompileStop
    ensures { result ≡ lexical_of stop }
{
    match stop {
        LexStop::Encoding(at) => CompileStop::Refused(Fault::Encoding(at)),
        LexStop::Lexical(kind, at) => CompileStop::Refused(Fault::Lexical(kind, at)),
        LexStop::TooManyTokens(at) => CompileStop::Refused(Fault::TooManyTokens(at)),
        LexStop::NoMemory => CompileStop::NoMemory,
    }
}
