// Laws of whole programs.

ghost use Rattle.sx_order_items.specs.Laws.{FailingNodesRise, FirstIsLeast, FunctionsRiseByNode, ProgramsKeepNodes};

/// A law: in walking order the numbers of the failing nodes of a tree rise, and each is one of the
/// tree's nodes. It does nothing.
pub fn failing_nodes_rise()
    ensures { FailingNodesRise }
{}

/// A law: the first failing node of a tree, which [`check`](sx_check_decl::check) answers, is the one
/// with the least number. It does nothing.
pub fn first_failing_node_is_least()
    ensures { FirstIsLeast }
{}

/// A law: the functions of a typed program stand in the order of their nodes, and each node is one
/// of the tree's. So no two have one node. It does nothing.
pub fn functions_rise()
    ensures { FunctionsRiseByNode }
{}

/// A law: where a program is typed, the statements of its outermost level start, and its stored
/// globals are declared, at nodes of the tree. It does nothing.
pub fn programs_keep_nodes()
    ensures { ProgramsKeepNodes }
{}
