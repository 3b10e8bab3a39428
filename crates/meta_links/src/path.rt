//! The places of a metadata file at which references stand, and their paths.
ghost use Rattle.std.specs.Prelude.{◌≡◌, IfOk};
ghost use Rattle.std.specs.Fmt.{decimal};
ghost use Rattle.meta_links.specs.Reference.{step, field_path};
ghost use Rattle.std.specs.Prelude.{ℕ, List};

use dh_metadata::kind::Kind;
use std::alloc::{AllocError, Global};

/// A place in a metadata file.
pub trait Place {
    /// Its path.
    ghost path: { Self → List ℕ };

    /// Its path. It is made only where the place is reported.
    fn path(&self, alloc: Global) -> Result<Vec<u8>, AllocError>
        ensures { IfOk result (λ text. text.items ≡ path self.now) };
}

/// A list under a key of the file.
#[derive(Drop)]
pub struct Key<'a> {
    pub key: &'a [u8],
}

/// A field of an object: the object's kind, its place in its list, and the field's name.
#[derive(Clone, Copy)]
pub struct Field<'a> {
    pub kind: Kind,
    pub place: u32,
    pub name: &'a str,
}

/// An entry of a list, by its place.
#[derive(Copy)]
pub struct Entry<P> {
    pub list: P,
    pub place: usize,
}

impl<P: Copy> Clone for Entry<P> {
    fn clone(&self) -> Result<Entry<P>, AllocError> {
        Ok(*self)
    }
}

/// A member of an object, by its name.
#[derive(Copy)]
pub struct Member<'a, P> {
    pub object: P,
    pub name: &'a [u8],
}

impl<'a, P: Copy> Clone for Member<'a, P> {
    fn clone(&self) -> Result<Member<'a, P>, AllocError> {
        Ok(Member {
            object: self.object,
            name: self.name,
        })
    }
}

impl<'a> Place for Key<'a> {
    ghost path = { λ list. list.key.now };

    fn path(&self, alloc: Global) -> Result<Vec<u8>, AllocError> {
        self.key.to_vec(alloc)
    }
}

impl<'a> Place for Field<'a> {
    ghost path = { λ field. field_path field.kind field.place field.name.now };

    fn path(&self, alloc: Global) -> Result<Vec<u8>, AllocError> {
        let text = format!(in alloc; "{}.{}.{}", self.kind.key(), self.place, self.name)?;
        Ok(text.into_bytes())
    }
}

impl<P: Place> Place for Entry<P> {
    ghost path = { λ entry. step (P.path entry.list) (decimal entry.place) };

    fn path(&self, alloc: Global) -> Result<Vec<u8>, AllocError> {
        let path = self.list.path(alloc)?;
        let text = place_text(alloc, self.place)?;
        longer(path, &text)
    }
}

impl<'a, P: Place> Place for Member<'a, P> {
    ghost path = { λ member. step (P.path member.object) member.name.now };

    fn path(&self, alloc: Global) -> Result<Vec<u8>, AllocError> {
        let path = self.object.path(alloc)?;
        longer(path, self.name)
    }
}

// The text of a place in a list.
fn place_text(alloc: Global, place: usize) -> Result<Vec<u8>, AllocError>
    ensures { IfOk result (λ text. text.items ≡ decimal place) }
{
    Ok(format!(in alloc; "{place}")?.into_bytes())
}

// A path and one step more.
fn longer(path: Vec<u8>, name: &[u8]) -> Result<Vec<u8>, AllocError>
    ensures { IfOk result (λ all. all.items ≡ step path.items name.now) }
{
    let mut all = path;
    all.push(b'.')?;
    all.extend_from_slice(name)?;
    Ok(all)
}
