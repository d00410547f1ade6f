//! Equality of plans.
use crate::plans::plan::Plan;

impl PartialEq for Plan {
    ghost use Rattle.std.specs.Cmp.{partial_equiv_from_equiv};
    ghost use Rattle.drv_graph.specs.Equality.{same_graph, same_graph_laws};

    ghost eq = { same_graph };

    ghost laws = { partial_equiv_from_equiv same_graph_laws };

    fn eq(&self, other: &Plan) -> bool {
        self.profile().is_same(other.profile())
            && self.roots() == other.roots()
            && self.has_same_nodes(other)
    }
}

impl Eq for Plan {
    ghost use Rattle.drv_graph.specs.Equality.{same_graph_laws};

    ghost laws = { same_graph_laws };
}
