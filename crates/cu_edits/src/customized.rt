//! Which edges of a hierarchy are known to be customized.

ghost use Rattle.std.specs.Prelude.{◌≡◌, ◌<◌, All, IfOk, length, true};
ghost use Rattle.cu_interval.specs.declared.ways.TouchedEdge.{TouchedEdge};
ghost use Rattle.cu_interval.specs.Hierarchies.{HierarchyValue, IsBuilt};
ghost use Rattle.cu_edits.specs.Customized.{AreCustomized, marked};

use cu_interval::TouchedEdge;
use cu_model::NoMemory;
use std::alloc::Global;
use std::marker::Model;

/// Which edges of a hierarchy are known to be customized: their lists are what customization makes of the lists below them.
/// Contracts see a mark for each edge.
#[derive(Drop)]
pub struct CustomizedEdges {
    marks: Vec<bool>,
}

impl Model for CustomizedEdges {
    ghost use Rattle.std.specs.Prelude.{Bool, List};

    ghost Value = { List Bool };

    ghost view = { λ edges. edges.marks.items };
}

impl CustomizedEdges {
    /// Of so many edges none is known to be.
    pub fn none(alloc: Global, edges: u32) -> Result<CustomizedEdges, NoMemory>
        ensures long { IfOk result (λ marks. length marks ≡ edges) }
        ensures customized { IfOk result (λ marks. (h : HierarchyValue) → AreCustomized h marks) }
    {
        Ok(CustomizedEdges {
            marks: vec![in alloc; false; edges as usize]?,
        })
    }

    /// Of so many edges all are, as in a built hierarchy.
    pub fn all(alloc: Global, edges: u32) -> Result<CustomizedEdges, NoMemory>
        ensures long { IfOk result (λ marks. length marks ≡ edges) }
        ensures customized { IfOk result
            (λ marks. (h : HierarchyValue) → IsBuilt h → AreCustomized h marks) }
        ensures marked { IfOk result (λ marks. All (λ mark. mark ≡ true) marks) }
    {
        Ok(CustomizedEdges {
            marks: vec![in alloc; true; edges as usize]?,
        })
    }

    /// The marks, by edge. Takes no memory.
    pub fn marks(&self) -> &[bool]
        ensures { result.now ≡ self.now }
    {
        &self.marks
    }

    /// Marks the edges that an edit settled, each below the number of edges. Takes no memory.
    pub fn mark(&mut self, touched: &[TouchedEdge])
        requires edges { All (λ (t : TouchedEdge). t.edge < length self.old) touched.now }
        ensures { self.new ≡ marked self.old touched.now }
    {
        'edges: for settled in touched {
            self.marks[settled.edge as usize] = true;
        }
    }
}
