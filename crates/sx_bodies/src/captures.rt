// What closure literals capture.

ghost use Rattle.std.specs.Prelude.{◌≡◌, ◌++◌, IfOk, OnOk, drop, map};
ghost use Rattle.sx_bodies.specs.Literals as literals;

use indexmap::IndexSet;
use sqlite_items::Items;
use std::alloc::{AllocError, Global};
use sx_scope::{Stack, Walk};
use sx_span::Node;
use sx_typed::Mention;

/// Goes on behind the literal with this node: so many locals stay in scope, and of what it has
/// mentioned stays what it captures.
pub fn close(
    alloc: Global,
    walk: &mut Walk,
    node: Node,
    locals: usize,
    mentions: usize,
) -> Result<(), AllocError>
    ensures { OnOk result (walk.new ≡ literals.closed node locals mentions walk.old) }
{
    let inside = behind(walk.mentions.as_slice(), mentions);
    let captured = captured(alloc, inside, node)?;
    walk.locals.truncate(locals);
    walk.mentions.truncate(mentions);
    push_all(&mut walk.mentions, captured.as_slice())
}

/// What has been mentioned from this index on.
pub fn behind(mentions: &[Mention], from: usize) -> &[Mention]
    ensures { result.now ≡ drop from mentions.now }
{
    if from < mentions.len() {
        &mentions[from..]
    } else {
        &[]
    }
}

fn push_all(mentions: &mut Stack<Mention>, mut more: &[Mention]) -> Result<(), AllocError>
    ensures { OnOk result (mentions.new ≡ mentions.old ++ more.entry.now) }
{
    'mentions: while let [mention, rest @ ..] = more {
        mentions.push(*mention)?;
        more = rest;
    }
    Ok(())
}

/// What of this stands outside the literal with this node, each once, in the order of the first
/// mentions.
fn captured(
    alloc: Global,
    mut mentions: &[Mention],
    node: Node,
) -> Result<Items<Mention>, AllocError>
    ensures { IfOk result (λ c. c ≡ literals.captured node mentions.entry.now) }
{
    let mut captured = Items::new(alloc);
    let mut seen = IndexSet::new(alloc);
    'mentions: while let [mention, rest @ ..] = mentions {
        if is_outside(node, *mention) {
            add(&mut captured, &mut seen, *mention)?;
        }
        mentions = rest;
    }
    Ok(captured)
}

/// Adds a mention, unless one of the same node is there. `seen` has their nodes.
fn add(
    captured: &mut Items<Mention>,
    seen: &mut IndexSet<u32>,
    mention: Mention,
) -> Result<(), AllocError>
    requires { seen.old.keys ≡ map literals.number_of_mention captured.old }
    ensures seen { OnOk result (seen.new.keys ≡ map literals.number_of_mention captured.new) }
    ensures captured { OnOk result (captured.new ≡ literals.with_first captured.old mention) }
{
    let added = match seen.insert(node_of(mention).0) {
        Ok(added) => added,
        Err(_) => return Err(AllocError),
    };
    if added {
        captured.push(mention)?;
    }
    Ok(())
}

fn is_outside(node: Node, mention: Mention) -> bool
    ensures { result ≡ literals.is_outside node mention }
{
    node_of(mention).0 < node.0
}

fn node_of(mention: Mention) -> Node
    ensures { result ≡ literals.node_of_mention mention }
{
    match mention {
        Mention::Constant(node, _) | Mention::Variable(node) | Mention::InOut(node) => node,
    }
}
