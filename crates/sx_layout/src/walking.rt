// A walk into what structures hold, that tells how many words they have. It takes time in
// proportion to the structures and their stored properties, however deep they nest.

ghost use Rattle.std.specs.Prelude.{◌≡◌, ◌++◌, ◌∷◌, [], ◌<◌, ◌≤◌, length, map, OnOk, IfOk};
ghost use Rattle.sx_layout.specs.Measured.{AreWidths};
ghost use Rattle.sx_layout.specs.Walking.{AreRight, FoundIs, IsSum, IsWalk, PartIs, StandsAt, StaySeen, left_to_do, words_if_measured};

use std::alloc::{AllocError, Global};
use sx_types::{Structure, Ty};

/// The most words that a type may have.
const MOST_WORDS: u32 = 1024;

/// How far the walk has come with a structure.
#[derive(Clone, Copy, Debug, PartialEq, Eq)]
pub enum Progress {
    Unseen,
    /// Its stored properties are being added up.
    Open,
    /// Its words, or `None` where they can't be told or are too many.
    Measured(Option<u32>),
}

impl Progress {
    /// The words of a structure that is measured.
    fn words(self) -> Option<u32>
        ensures { result ≡ words_if_measured self }
    {
        match self {
            Progress::Measured(words) => words,
            Progress::Unseen | Progress::Open => None,
        }
    }
}

/// A structure whose stored properties are being added up.
#[derive(Clone, Copy, Debug)]
pub struct Sum {
    pub structure: usize,
    /// The first stored property that isn't added yet.
    pub next: usize,
    /// The words of those before it.
    pub words: u32,
}

/// What is known of a stored property.
pub enum Part {
    /// Its words, or `None` where they can't be told or are too many.
    Words(Option<u32>),
    /// Its type is this structure, which isn't measured yet.
    Structure(usize),
}

/// What adding up has come to.
pub enum Found {
    /// The words of the structure, or `None` where they can't be told or are too many.
    Words(Option<u32>),
    /// The sum waits for this structure, which isn't measured yet.
    Structure(Sum, usize),
}

/// The words of a stored property of this type.
fn property_part(progress: &[Progress], ty: Option<Ty>) -> Part
    ensures { PartIs progress.now ty result }
{
    match ty {
        None => Part::Words(None),
        Some(ty) => match ty {
            Ty::Struct(number) => structure_part(progress, number as usize),
            Ty::Void => Part::Words(Some(0)),
            Ty::Int | Ty::Bool | Ty::Array | Ty::Class(_) => Part::Words(Some(1)),
            Ty::Func(_) => Part::Words(Some(2)),
        },
    }
}

/// The words of this structure.
fn structure_part(progress: &[Progress], number: usize) -> Part
    ensures { PartIs progress.now (Some (Ty.Struct number)) result }
{
    match progress.get(number) {
        None => Part::Words(None),
        Some(Progress::Measured(words)) => Part::Words(*words),
        Some(_) => Part::Structure(number),
    }
}

/// Goes on with the sum until all stored properties are added or one must be measured before.
fn add_up(structures: &[Structure], progress: &[Progress], sum: Sum) -> Found
    requires many { length progress.now ≡ length structures.now }
    requires right { AreRight structures.now progress.now }
    requires sum { IsSum structures.now sum }
    ensures { FoundIs structures.now progress.now sum.structure result }
{
    let stored = structures[sum.structure].stored.as_slice();
    let mut words = sum.words;
    for next in sum.next..stored.len() {
        match property_part(progress, stored[next].ty) {
            Part::Words(None) => return Found::Words(None),
            Part::Words(Some(more)) => {
                words += more;
                if words > MOST_WORDS {
                    return Found::Words(None);
                }
            }
            Part::Structure(number) => {
                let sum = Sum {
                    structure: sum.structure,
                    next,
                    words,
                };
                return Found::Structure(sum, number);
            }
        }
    }
    Found::Words(Some(words.max(1)))
}

/// Goes on with the last sum of the walk, which has been taken from the stack.
fn turn(
    structures: &[Structure],
    progress: &mut [Progress],
    stack: &mut Vec<Sum>,
    sum: Sum,
) -> Result<(), AllocError>
    requires { IsWalk structures.now progress.old (stack.old.items ++ sum ∷ []) }
    ensures walk { OnOk result (IsWalk structures.now progress.new stack.new.items) }
    ensures seen { OnOk result (StaySeen progress.old progress.new) }
    ensures less { OnOk result (left_to_do progress.new stack.new.items < left_to_do progress.old (stack.old.items ++ sum ∷ [])) }
{
    match add_up(structures, progress, sum) {
        Found::Words(words) => progress[sum.structure] = Progress::Measured(words),
        Found::Structure(sum, number) => match progress[number] {
            Progress::Unseen => {
                progress[number] = Progress::Open;
                stack.push(sum)?;
                stack.push(Sum {
                    structure: number,
                    next: 0,
                    words: 0,
                })?;
            }
            _ => progress[sum.structure] = Progress::Measured(None),
        },
    }
    Ok(())
}

/// Measures the structure and those that it holds.
fn walk(
    alloc: Global,
    structures: &[Structure],
    progress: &mut [Progress],
    root: usize,
) -> Result<(), AllocError>
    requires root { StandsAt progress.old root Progress.Unseen }
    requires walk { IsWalk structures.now progress.old [] }
    ensures walk { OnOk result (IsWalk structures.now progress.new []) }
    ensures seen { OnOk result (StaySeen progress.old progress.new) }
    ensures root { OnOk result (¬ StandsAt progress.new root Progress.Unseen) }
{
    let mut stack = Vec::new(alloc);
    progress[root] = Progress::Open;
    stack.push(Sum {
        structure: root,
        next: 0,
        words: 0,
    })?;
    while let Some(sum) = stack.pop() {
        turn(structures, progress, &mut stack, sum)?;
    }
    Ok(())
}

/// For each structure its words, or `None` where they can't be told or are too many.
pub fn widths(alloc: Global, structures: &[Structure]) -> Result<Vec<Option<u32>>, AllocError>
    ensures { IfOk result (λ found. AreWidths structures.now found.items) }
{
    let mut progress = vec![in alloc; Progress::Unseen; structures.len()]?;
    for root in 0..progress.len() {
        if progress[root] == Progress::Unseen {
            walk(alloc, structures, progress.as_mut_slice(), root)?;
        }
    }
    measured(alloc, &progress)
}

/// The words of those that are measured.
fn measured(alloc: Global, progress: &[Progress]) -> Result<Vec<Option<u32>>, AllocError>
    ensures { IfOk result (λ found. found.items ≡ map words_if_measured progress.now) }
{
    progress
        .iter()
        .map(|reached| reached.words())
        .collect(alloc)
}
