ghost use Rattle.std.specs.Prelude.{◌≡◌, IfOk};

use super::World;
use crate::watched::Watched;
use object::{Object, copies_of};
use std::alloc::{AllocError, Global};

impl<O: Object> World<O> {
    /// The same world once more.
    pub(crate) fn copy(&self) -> Result<World<O>, AllocError>
        ensures { IfOk result (λ copy. copy ≡ self.now) }
    {
        let nodes = copy_nodes(self.alloc, &self.nodes)?;
        let letters = copies_of(self.alloc, &self.letters)?;
        let submitted = copies_of(self.alloc, &self.submitted)?;
        let answers = copies_of(self.alloc, &self.answers)?;
        let performed = copies_of(self.alloc, &self.performed)?;
        Ok(World {
            alloc: self.alloc,
            members: self.members,
            nodes,
            letters,
            submitted,
            answers,
            performed,
            reach: self.reach,
            taken: self.taken,
        })
    }
}

// The same nodes once more.
fn copy_nodes<O: Object>(alloc: Global, nodes: &[Watched<O>]) -> Result<Vec<Watched<O>>, AllocError>
    ensures { IfOk result (λ copies. copies.items ≡ nodes.now) }
{
    let mut copies = Vec::new(alloc);
    for node in nodes {
        copies.push(node.copy()?)?;
    }
    Ok(copies)
}
