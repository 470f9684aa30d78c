// The total eligibility sets of a join: its two sides, widened by the earlier joins (cd_e_for_predicate of hypergraph.rs).
#![tactic(auto)]

ghost use Rattle.std.specs.Prelude.{◌≡◌, ℕ, length};
ghost use Rattle.definition.specs.Edges.{record_of};
ghost use Rattle.tes.specs.Views.{sides_of, Linked, Gained, WidenedSide, WidenedLeft, WidenedRight, WidenedBy, Widened, join_of, turned};

use connectivity::EdgeSides;

// An earlier join: its type, the leaves of its two sides, and its record sets.
#[derive(Clone, Copy, Default)]
pub struct JoinRecord {
    // kept: any number was taken as a type, and one that is no type has an answer, that nothing is allowed: an enum would ask more of callers.
    pub join_type: u32,
    pub left_nodes: u64,
    pub right_nodes: u64,
    pub tes_left: u64,
    pub tes_right: u64,
}

// The sets of a join's two sides.
#[derive(Clone, Copy)]
pub struct Sides {
    pub left: u64,
    pub right: u64,
}

// A join that is built: its type and its whole sides.
#[derive(Clone, Copy)]
pub struct NewJoin {
    // kept: a number, as JoinRecord's.
    pub join_type: u32,
    pub whole: Sides,
}

impl JoinRecord {
    // The join with its two sides exchanged.
    fn turned(self) -> Self
        ensures { join_of result ≡ turned (join_of self) }
    {
        Self {
            join_type: self.join_type,
            left_nodes: self.right_nodes,
            right_nodes: self.left_nodes,
            tes_left: self.tes_right,
            tes_right: self.tes_left,
        }
    }

    // Whether the edges so far connect the leaves from of this earlier join to our side to. Edges whose union is that of its record sets are
    // passed over.
    fn linked(self, edges: &EdgeSides<'_>, from: u64, to: u64) -> bool
        ensures { Linked edges.now.left.now edges.now.right.now self from to result }
    {
        connectivity::connected(edges, from, to, self.tes_left | self.tes_right)
    }

    // s with add, where the table says no and the link is there. The edges are asked only where the table says no.
    fn gained(
        self,
        edges: &EdgeSides<'_>,
        allowed: bool,
        from: u64,
        to: u64,
        add: u64,
        s: u64,
    ) -> u64
        ensures { Gained edges.now.left.now edges.now.right.now allowed self from to add s result }
    {
        if !allowed && self.linked(edges, from, to) {
            s | add
        } else {
            s
        }
    }

    // The set s of our side that this join lies in, as its left side sees it. t: our type; across: our other side; asscom: what the table says
    // that is asked beside assoc.
    // kept: t is a number, as JoinRecord's type.
    #[tactic(auto, using(crate::specs::TableLaws::said_assoc))]
    fn widened_side(self, edges: &EdgeSides<'_>, t: u32, asscom: bool, across: u64, s: u64) -> u64
        ensures { WidenedSide edges.now.left.now edges.now.right.now t asscom across self s result }
    {
        let assoc = conflict::assoc(self.join_type, t).unwrap_or(false);
        let first = self.gained(edges, assoc, self.right_nodes, across, self.tes_left, s);
        self.gained(
            edges,
            asscom,
            self.left_nodes,
            across,
            self.tes_right,
            first,
        )
    }
}

impl NewJoin {
    // The set s of our left side, widened by a join j inside that side.
    // kept: beside its twin, as what they share is widened_side.
    #[tactic(auto, using(crate::specs::TableLaws::said_l_asscom))]
    fn widened_left(self, edges: &EdgeSides<'_>, j: JoinRecord, s: u64) -> u64
        ensures { WidenedLeft edges.now.left.now edges.now.right.now self j s result }
    {
        let asscom = conflict::l_asscom(j.join_type, self.join_type).unwrap_or(false);
        j.widened_side(edges, self.join_type, asscom, self.whole.right, s)
    }

    // The set s of our right side, widened by a join j inside that side.
    // kept: as widened_left.
    fn widened_right(self, edges: &EdgeSides<'_>, j: JoinRecord, s: u64) -> u64
        ensures { WidenedRight edges.now.left.now edges.now.right.now self j s result }
    {
        let asscom = conflict::r_asscom(j.join_type, self.join_type).unwrap_or(false);
        j.turned()
            .widened_side(edges, self.join_type, asscom, self.whole.left, s)
    }

    // Both sets, widened by one earlier join.
    fn widened(self, edges: &EdgeSides<'_>, j: JoinRecord, s: Sides) -> Sides
        ensures { WidenedBy edges.now.left.now edges.now.right.now self j s result }
    {
        let both = j.left_nodes | j.right_nodes;
        let mut x = s;
        if nodeset::is_subset(both, self.whole.left) {
            x.left = self.widened_left(edges, j, s.left);
        }
        if nodeset::is_subset(both, self.whole.right) {
            x.right = self.widened_right(edges, j, s.right);
        }
        x
    }

    // Its record, with these record sets.
    pub fn record(self, tes: Sides) -> JoinRecord
        ensures { join_of result ≡ record_of self.join_type self.whole.left self.whole.right (sides_of tes) }
    {
        JoinRecord {
            join_type: self.join_type,
            left_nodes: self.whole.left,
            right_nodes: self.whole.right,
            tes_left: tes.left,
            tes_right: tes.right,
        }
    }

    // Each of the earlier joins in turn, from the sets start on.
    pub fn widen(self, edges: &EdgeSides<'_>, joins: &[JoinRecord], start: Sides) -> Sides
        ensures { Widened edges.now.left.now edges.now.right.now self joins.now start result }
    {
        let mut s = start;
        for j in joins {
            s = self.widened(edges, *j, s);
        }
        s
    }
}
