//! Laws of nodes. Each function's contract is a law, and its body is empty.
ghost use Rattle.der_parser.specs.Viewing.Laws.{OneValue, ValueOrFault, ElementShows, ElementsShow, DerTreesShow};
ghost use Rattle.der_parser.specs.Viewing.Laws.{OneTree, OneTreeOfContents};

/// A node has one value or one error. So each accessor has one result.
pub fn values_are_one()
    ensures value { OneValue }
    ensures no_fault { ValueOrFault }
{}

/// The nodes over a list of elements, by BER or DER, show these. The octets of a node are its header, its content
/// octets and the end-of-contents octets of an indefinite length. Its items are the elements of its content in order.
pub fn elements_show()
    ensures all { ElementsShow }
    ensures one { ElementShows }
{}

/// If an input begins with an element by DER, the nodes over the element show what `parse_der` reads: the root is the
/// object, the items of a node are those of the object in order, and the value of a node is its content.
pub fn der_trees_show()
    ensures { DerTreesShow }
{}

/// A node shows one tree, which its elements and their content octets determine.
pub fn nodes_show_one_tree()
    ensures tree { OneTree }
    ensures of_contents { OneTreeOfContents }
{}
