//! Laws of the answers that a machine computes. The calls do nothing: their contracts are the laws.

ghost use Rattle.std.specs.Prelude.{◌≡◌, ◌↔◌, ℕ, ℤ, true};
ghost use Rattle.share_base.specs.declared.shape.Shape.{Shape as OneShape};
ghost use Rattle.share_base.specs.declared.shape.Side.{Side as OneSide};
ghost use Rattle.share_base.specs.declared.corners.Corners.{Corners as TheCorners};
ghost use Rattle.edge_cross.specs.declared.edge.Axis.{Axis as OneAxis};
ghost use Rattle.edge_cross.specs.Edges.{Leaves};
ghost use Rattle.edge_cross.specs.InCorners.{InCorner};
ghost use Rattle.edge_cross.specs.PassedEdges.{edge_passed};
ghost use Rattle.edge_cross.specs.CornerTests.{is_in_corner};

/// The edge that is computed is the one that the point has passed, and none is computed if it has
/// passed none.
pub fn edge_is_passed()
    ensures { (axis : OneAxis) (shape : OneShape) (x y : ℤ)
        → Leaves (edge_passed axis shape x y) axis shape x y }
{}

/// A pixel is computed to lie in a listed corner if and only if it does.
pub fn corner_is_tested()
    ensures { (corners : TheCorners) (side : OneSide) (p n : ℕ)
        → (is_in_corner corners side p n ≡ true) ↔ InCorner corners side p n }
{}
