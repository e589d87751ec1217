//! The laws of requests, each proved on a function of no arguments.
ghost use Rattle.dkv_heads.specs.Laws.{BadStays, FirstIsFirst, ReceivedIsOne, RequestsAreOne, RequestsStay, RestIsOne, WaitingIsOpen};

/// Bytes begin with at most one request, and one rest follows it.
pub fn one_request()
    ensures { ReceivedIsOne }
{}

/// Bytes have just one list of requests.
pub fn one_list()
    ensures { RequestsAreOne }
{}

/// What was read as requests stays so, whatever comes after it.
pub fn requests_stay()
    ensures { RequestsStay }
{}

/// A rest stands in one way, unless it has many lines.
pub fn one_rest()
    ensures { RestIsOne }
{}

/// A bad rest stays bad, whatever comes after it, unless it has many lines.
pub fn bad_stays()
    ensures { BadStays }
{}

/// The first field of a name is the first value that the header map has under it.
pub fn first_value_is_first()
    ensures { FirstIsFirst }
{}

/// Where `httparse` waits for more and there are not many lines, some continuation begins with a head, or the target
/// is still open.
pub fn waiting_is_open()
    ensures { WaitingIsOpen }
{}
