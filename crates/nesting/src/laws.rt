//! Laws of measures.
ghost use Rattle.nesting.specs.Laws.{PartsPileLess};

/// Of ends and labels each stands open no more than both.
pub fn parts_pile_less()
    ensures { PartsPileLess }
{}
