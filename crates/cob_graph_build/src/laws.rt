//! What holds of each program's graph before it is built.
ghost use Rattle.cob_graph_build.specs.MainCopies.{NestedProgramsHaveMainCopies, NestedProgramsHaveNodes};

/// A law: a program whose PERFORMs nest, and each of whose GO TOs goes to a paragraph of it, has a main copy, and so a
/// count of nodes. In the copy each GO TO goes to a paragraph of the copy that it lies in.
pub fn nested_programs_have_main_copies()
    ensures copies { NestedProgramsHaveMainCopies }
    ensures nodes { NestedProgramsHaveNodes }
{}
