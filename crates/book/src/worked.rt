// The worked cases.
ghost use Rattle.network.specs.Worked.{AllHold};
ghost use Rattle.book.specs.Cases.{cases};

// The network of six junctions worked out by the definitions, from its borders to its answers. A theorem; it does nothing.
pub fn six_junctions_answered()
    ensures { AllHold cases }
{}
