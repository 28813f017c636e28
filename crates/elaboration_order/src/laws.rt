//! Laws of the order of groups.
ghost use Rattle.elaboration_order.specs.Orders.{GroupsAreInOrder};

/// In an elaborated program the functions of each group make groups before it alone.
pub fn groups_are_in_order()
    ensures { GroupsAreInOrder }
{}
