//! Laws of faults, for those who read contracts: these functions do nothing.
ghost use Rattle.stream_laws.specs.WantFails.{ReferencesAreRead, ReferencesAreSpelled, WantFaultsAreShown, HeadedFaultsAreShown, ShortWantsShowNone, WantFaultIsOne, FaultsAreShown, ShortShowsNone, FaultIsOne};

/// Reading answers a reference exactly as its bytes give it, beside the nodes so far.
pub fn references_are_read()
    ensures { ReferencesAreRead }
{}

/// Behind wants that are spelled, bytes give a reference exactly as they spell it, within the limits.
pub fn references_are_spelled()
    ensures { ReferencesAreSpelled }
{}

/// Reading a list of wants answers a fault exactly where the bytes show it: a byte that differs from the magic number, a reference that
/// is refused, a negative length, a code that begins no block, or a block that is left. Each other kind of fault is one of a reference.
pub fn want_faults_are_shown()
    ensures { WantFaultsAreShown }
{}

/// Where bytes of block data were taken by themselves, as a call's head is, and other wants are read behind them, as its arguments are,
/// a fault of these is answered exactly where the bytes of both show it of all the wants.
pub fn headed_faults_are_shown()
    ensures { HeadedFaultsAreShown }
{}

/// The bytes of a list of wants end too early exactly where no front of them meets the wants, and they show no fault.
pub fn short_wants_show_none()
    ensures { ShortWantsShowNone }
{}

/// Bytes show one fault of a list of wants at most, and none where a front of them meets the wants.
pub fn want_fault_is_one()
    ensures { WantFaultIsOne }
{}

/// Reading a stream to its end answers a fault exactly where the bytes show it.
pub fn faults_are_shown()
    ensures { FaultsAreShown }
{}

/// A stream's bytes end too early exactly where they are no stream and show no fault.
pub fn short_shows_none()
    ensures { ShortShowsNone }
{}

/// Bytes show one fault of a whole stream at most.
pub fn fault_is_one()
    ensures { FaultIsOne }
{}
