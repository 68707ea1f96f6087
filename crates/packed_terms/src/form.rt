// The heads of a term, as they are kept.
ghost use Rattle.std.specs.Prelude.{◌≡◌, IfOk, IfSome, length, map, slice_get};
ghost use Rattle.packed_terms.specs.Codes.{head_of, heads_of};

use crate::codes::{Code, code_of, head_of};
use crate::head::Head;
use std::alloc::{AllocError, Global};

/// Heads in four bytes each, or as they are where one has no room in them.
#[derive(Drop)]
pub enum Form {
    Short(Vec<Code>),
    Long(Vec<Head>),
}

// The codes of heads, if each has one.
fn codes_of(alloc: Global, heads: &[Head]) -> Result<Option<Vec<Code>>, AllocError>
    ensures { IfOk result (λ codes. IfSome codes (λ cs. map head_of cs.items ≡ heads.now)) }
{
    let mut codes = Vec::with_capacity(alloc, heads.len())?;
    for head in heads {
        match code_of(*head) {
            None => return Ok(None),
            Some(code) => codes.push(code)?,
        }
    }
    Ok(Some(codes))
}

impl Form {
    /// Heads in the shortest form for them.
    pub fn new(alloc: Global, heads: Vec<Head>) -> Result<Form, AllocError>
        ensures { IfOk result (λ form. heads_of form ≡ heads.items) }
    {
        match codes_of(alloc, &heads)? {
            None => Ok(Form::Long(heads)),
            Some(codes) => Ok(Form::Short(codes)),
        }
    }

    /// How many there are.
    pub fn len(&self) -> usize
        ensures { result ≡ length (heads_of self.now) }
    {
        match self {
            Form::Short(codes) => codes.len(),
            Form::Long(heads) => heads.len(),
        }
    }

    /// The head at a place.
    pub fn head(&self, i: usize) -> Option<Head>
        ensures { result ≡ slice_get (heads_of self.now) i }
    {
        match self {
            Form::Short(codes) => match codes.get(i) {
                None => None,
                Some(code) => Some(head_of(*code)),
            },
            Form::Long(heads) => heads.get(i).copied(),
        }
    }
}
