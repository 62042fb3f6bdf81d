//! What is true of the abstract maps and transfers of every network: each law is the contract of a function that
//! does nothing.

ghost use Rattle.abstract_maps.specs.Laws.{ArrivalFits, ArrivalIsIn, ClosedIsBottom, FreeIsNoneOrInhabited, FreeIsTransfer, GivesGrows, GivesIsNoneOrInhabited, GivesIsRow, GivesIsShort, GivesIsSound, GivesLengthens, LocalIsExact, LocalIsRow, LocalIsShort, LongestIsSmall, MapGrows, MapIsNoneOrInhabited, MapIsSound, MapKeepsLength, MapLengthens, OpenAddsOne, OpenGrows, PassesIsOpen, PassingIsSure, SureGives, TransferGrows, TransferIsCut, TransferIsNoneOrInhabited, TransferIsRow, TransferIsShort, TransferIsSound, TransferLengthens};
ghost use Rattle.abstract_maps.specs.OneRoute.{MapIsExact, OpenIsExact, OpenIsPasses, PassesIsExact, SureIsExact, TransferIsExact};

/// What a policy gives of a route of a row is a route of what it makes of the row, and a policy that is sure of a
/// row gives something of each of its routes. Paths get at most 10 entries longer.
pub fn law_of_maps()
    ensures sound { MapIsSound }
    ensures grows { MapGrows }
    ensures either { MapIsNoneOrInhabited }
    ensures sure { SureGives }
    ensures long { MapLengthens }
{}

/// What an arc carries of a route of a row is a route of what it makes of the row, if its path has at most 21 entries
/// for each router of the network; and so has every path that comes over an arc in a stable labelling.
pub fn law_of_soundness()
    ensures transfer { TransferIsSound }
    ensures gives { GivesIsSound }
    ensures arrival { ArrivalFits }
    ensures arrival_in { ArrivalIsIn }
{}

/// Where an arc passes a row, each route of the row comes over it, but for one whose path its receiver is on.
pub fn law_of_passing()
    ensures { PassingIsSure }
{}

/// What an arc makes of a row grows with the row, and what is open stays open.
pub fn law_of_growth()
    ensures transfer { TransferGrows }
    ensures gives { GivesGrows }
    ensures open { OpenGrows }
{}

/// An arc makes no route of a row, or an inhabited row; passing arcs are open, an arc that is not open makes
/// nothing of the row, and open is asked of the row without the receiver.
pub fn law_of_open_arcs()
    ensures either { TransferIsNoneOrInhabited }
    ensures either_free { FreeIsNoneOrInhabited }
    ensures either_gives { GivesIsNoneOrInhabited }
    ensures free { FreeIsTransfer }
    ensures passes { PassesIsOpen }
    ensures closed { ClosedIsBottom }
{}

/// What an arc makes of a row of 64-bit words is such a row, with paths of at most 21 entries for each router.
pub fn law_of_rows()
    ensures transfer { TransferIsRow }
    ensures gives { GivesIsRow }
    ensures cut { TransferIsCut }
    ensures short_transfer { TransferIsShort }
    ensures short_gives { GivesIsShort }
{}

/// The row of a router's local route is the least that the route fits: a row of 64-bit words with a short path.
pub fn law_of_local_rows()
    ensures exact { LocalIsExact }
    ensures row { LocalIsRow }
    ensures short { LocalIsShort }
{}

/// On the row of one route nothing is left open: each answer is what becomes of the route. An arc that is open for a
/// row with no open community passes it.
pub fn law_of_one_route()
    ensures map { MapIsExact }
    ensures sure { SureIsExact }
    ensures transfer { TransferIsExact }
    ensures passes { PassesIsExact }
    ensures open { OpenIsExact }
    ensures known { OpenIsPasses }
{}

/// Where a policy leaves some route of a row, the longest paths are no shorter; where an arc does, they are longer by an
/// entry at least, up to 21 entries for each router, and so are those that it gives; by one where both ends are open.
/// That bound is a word of 64 bits.
pub fn law_of_lengthening()
    ensures map { MapKeepsLength }
    ensures transfer { TransferLengthens }
    ensures gives { GivesLengthens }
    ensures open { OpenAddsOne }
    ensures cut { LongestIsSmall }
{}
