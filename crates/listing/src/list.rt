// The listing of an image that is given as bytes.
ghost use Rattle.std.specs.Prelude.{◌≡◌, IfOk};
ghost use Rattle.format.specs.Images.{codes_of_image, operands_of_image, EachInstr};
ghost use Rattle.listing.specs.declared.list.ListError.TheVariants.{Refused, OutOfMemory};
ghost use Rattle.listing.specs.Lines.{instrs_in};
ghost use Rattle.listing.specs.Passes.{Unknown};
ghost use Rattle.listing.specs.Images.{Decodes, Listed};

use crate::{Line, Listing};
use format::image::Image;
use format::refusal::Refusal;
use std::alloc::{AllocError, AllocFailed, Global};

#[derive(Clone, Copy, PartialEq, Eq, Debug)]
pub enum ListError {
    Refused(Refusal),
    OutOfMemory,
}

impl From<Refusal> for ListError {
    ghost from_gives = { λ refusal e. e ≡ Refused refusal };

    fn from(refusal: Refusal) -> ListError {
        ListError::Refused(refusal)
    }
}

// One for each error type, and by hand, so that a contract can say which error comes.
impl From<AllocError> for ListError {
    ghost from_gives = { λ _ e. e ≡ OutOfMemory };

    fn from(_: AllocError) -> ListError {
        ListError::OutOfMemory
    }
}

impl<T: Drop> From<AllocFailed<T>> for ListError {
    ghost from_gives = { λ _ e. e ≡ OutOfMemory };

    fn from(_: AllocFailed<T>) -> ListError {
        ListError::OutOfMemory
    }
}

pub fn list(heap: Global, bytes: &[u8]) -> Result<Listing, ListError>
    ensures { Listed bytes.now result }
{
    let image = Image::read(bytes)?;
    let lines = collect(heap, &image)?;
    Ok(Listing::follow_all(lines))
}

// The lines of an image that was read, with no heights yet. Made at once, so that there is one array.
fn collect(heap: Global, image: &Image) -> Result<Vec<Line>, AllocError>
    requires { EachInstr image.now }
    ensures { IfOk result (λ lines. Decodes (codes_of_image image.now) (operands_of_image image.now) image.now.header (instrs_in lines.items) × Unknown lines.items) }
{
    let count = image.len() as u16;
    (0..count)
        .map(|i| Line {
            instr: image.instr(i).unwrap(),
            height: None,
        })
        .collect(heap)
}
