// Names with a meaning of their own.

ghost use Rattle.std.specs.Prelude.{◌≡◌, IfOk, position};
ghost use Rattle.sx_check_decl.specs.Special as special;

use std::alloc::AllocError;
use sx_functions::OwnNames;
use sx_tables::SpecialNames;

/// The numbers of the names that are reserved, where these are the names of a text.
pub fn special_names(names: &[Vec<u8>]) -> Result<SpecialNames, AllocError>
    ensures { IfOk result (λ s. s ≡ special.special_names names.now) }
{
    Ok(SpecialNames {
        int: number_of_name(names, b"Int")?,
        bool: number_of_name(names, b"Bool")?,
        void: number_of_name(names, b"Void")?,
        print: number_of_name(names, b"print")?,
    })
}

/// The numbers of the names that parameters of accessors and observers have where none is written.
pub fn own_names(names: &[Vec<u8>]) -> Result<OwnNames, AllocError>
    ensures { IfOk result (λ s. s ≡ special.own_names names.now) }
{
    Ok(OwnNames {
        new_value: number_of_name(names, b"newValue")?,
        old_value: number_of_name(names, b"oldValue")?,
    })
}

/// The number of a name. Numbers that run out count as memory that does.
fn number_of_name(names: &[Vec<u8>], name: &[u8]) -> Result<Option<u32>, AllocError>
    ensures { IfOk result (λ n. n ≡ special.number_of_name names.now name.now) }
{
    match position_of(names, name) {
        None => Ok(None),
        Some(number) => match u32::try_from(number) {
            Ok(number) => Ok(Some(number)),
            Err(_) => Err(AllocError),
        },
    }
}

fn position_of(names: &[Vec<u8>], name: &[u8]) -> Option<usize>
    ensures { result ≡ position (special.is_name name.now) names.now }
{
    names.iter().position(|other| is_name(name, other))
}

fn is_name(name: &[u8], other: &Vec<u8>) -> bool
    ensures { result ≡ special.is_name name.now other.now }
{
    name == other.as_slice()
}
