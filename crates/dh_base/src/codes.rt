ghost use Rattle.std.specs.Prelude.{◌≡◌};

use crate::items::Items;
use std::fmt;

/// The product's own error codes, as DHIS2 has its codes E1000 and up.
///
/// An F code refuses a whole request, a C code one data value and a T code one tracker object.
#[derive(Clone, Copy, PartialEq, Eq)]
pub enum Code {
    /// BadHead: the head of the request is malformed.
    F1,
    /// HeadTooLong: the head of the request has too many bytes or field lines.
    F2,
    /// BodyTooLong: the body of the request has too many bytes.
    F3,
    /// BadFraming: the framing of the body is malformed.
    F4,
    /// NotPlain: the body is encoded or has another media type.
    F5,
    /// NoRoute: no route has this path.
    F6,
    /// NoMethod: the route does not take this method.
    F7,
    /// NoUser: the request names no user.
    F8,
    /// BadDimension: a dimension is malformed; the detail is its text.
    F10,
    /// NoData: the query has no data dimension.
    F11,
    /// NoPeriod: the query has no period dimension.
    F12,
    /// NoUnit: the query has no organisation unit.
    F13,
    /// NotSeen: an object is not there or not readable; the detail names it.
    F14,
    /// OutsideView: a unit is not there or outside the user's view; the detail names it.
    F15,
    /// TooManyCells: the query has too many cells; the detail is their number.
    F16,
    /// Unsupported: the query asks for what the server does not offer; the detail names it.
    F17,
    /// Wide: a value is too wide to be computed; the detail names its item.
    F18,
    /// NotYet: the change asked for is not yet in the tables; the detail is the number published.
    F19,
    /// BadBody: the body is malformed; the detail is the path of the fault.
    F20,
    /// BadParameter: a parameter is malformed; the detail is its name.
    F21,
    /// LogFull: the log is full; the detail is its limit.
    F22,
    /// StoreFault: the change could not be stored.
    F23,
    /// Busy: an update is staged already; the detail is its ticket.
    F30,
    /// NotAllowed: the user lacks an authority; the detail is its name.
    F31,
    /// UpdatesSpent: the server has made all its updates; the detail is their limit.
    F32,
    /// NoRight: the user may not approve or accept.
    F40,
    /// NotReady: a unit below is not yet approved; the detail names it.
    F41,
    /// AlreadyApproved: the data is approved already.
    F42,
    /// NotApproved: the data is not approved.
    F43,
    /// ApprovedAbove: the data is approved at a unit above; the detail names it.
    F44,
    /// NotAccepted: the data of a unit is not accepted; the detail names it.
    F45,
    /// Element: no such data element.
    C1,
    /// Unit: no such organisation unit.
    C2,
    /// Period: the period is malformed.
    C3,
    /// DataSet: no data set has the element.
    C4,
    /// PeriodType: no data set has the period's type.
    C5,
    /// OptionCombo: the category option combination does not fit the element.
    C6,
    /// AttributeCombo: the attribute option combination does not fit the data set.
    C7,
    /// Assigned: the unit is not assigned to the data set.
    C8,
    /// NoWrite: the user may not write data of the set or of an attribute option.
    C9,
    /// Scope: the unit is not under a capture unit of the user.
    C10,
    /// Value: the value is absent or does not fit the value type.
    C11,
    /// Future: the period is too far in the future.
    C12,
    /// Expired: the period is closed for data entry.
    C13,
    /// Approved: the data is approved.
    C14,
    /// Strategy: the import strategy does not fit what is held.
    C15,
    /// Uid: the object's own identifier is absent or malformed.
    T1,
    /// Reference: a type, program, stage, element or attribute is not there.
    T2,
    /// Unit: no such organisation unit.
    T3,
    /// Parent: the parent object is not there.
    T4,
    /// Program: the stage, enrollment or entity type is not of the program.
    T5,
    /// Scope: the unit is not under a capture unit of the user.
    T6,
    /// NoWrite: the user may not write data of the entity type or the program.
    T7,
    /// Status: the status is none of the object's kind.
    T8,
    /// Date: a date is malformed.
    T9,
    /// DateMissing: a date that the status needs is absent.
    T10,
    /// Value: a value does not fit its value type.
    T11,
    /// Item: an element is not of the stage, or an attribute not of the program.
    T12,
    /// Strategy: the import strategy does not fit what is held.
    T13,
    /// Twice: the object stands in the bundle twice.
    T14,
}

// The numbers and the names of the codes, each in the order of `Code`, which the proof of `number`
// and `name` holds them to.
const NUMBERS: [&str; 60] = [
    "F1", "F2", "F3", "F4", "F5", "F6", "F7", "F8", "F10", "F11", "F12", "F13", "F14", "F15",
    "F16", "F17", "F18", "F19", "F20", "F21", "F22", "F23", "F30", "F31", "F32", "F40", "F41",
    "F42", "F43", "F44", "F45", "C1", "C2", "C3", "C4", "C5", "C6", "C7", "C8", "C9", "C10", "C11",
    "C12", "C13", "C14", "C15", "T1", "T2", "T3", "T4", "T5", "T6", "T7", "T8", "T9", "T10", "T11",
    "T12", "T13", "T14",
];

const NAMES: [&str; 60] = [
    "BadHead",
    "HeadTooLong",
    "BodyTooLong",
    "BadFraming",
    "NotPlain",
    "NoRoute",
    "NoMethod",
    "NoUser",
    "BadDimension",
    "NoData",
    "NoPeriod",
    "NoUnit",
    "NotSeen",
    "OutsideView",
    "TooManyCells",
    "Unsupported",
    "Wide",
    "NotYet",
    "BadBody",
    "BadParameter",
    "LogFull",
    "StoreFault",
    "Busy",
    "NotAllowed",
    "UpdatesSpent",
    "NoRight",
    "NotReady",
    "AlreadyApproved",
    "NotApproved",
    "ApprovedAbove",
    "NotAccepted",
    "Element",
    "Unit",
    "Period",
    "DataSet",
    "PeriodType",
    "OptionCombo",
    "AttributeCombo",
    "Assigned",
    "NoWrite",
    "Scope",
    "Value",
    "Future",
    "Expired",
    "Approved",
    "Strategy",
    "Uid",
    "Reference",
    "Unit",
    "Parent",
    "Program",
    "Scope",
    "NoWrite",
    "Status",
    "Date",
    "DateMissing",
    "Value",
    "Item",
    "Strategy",
    "Twice",
];

impl Code {
    ghost use Rattle.dh_base.specs.Codes.{number_of, name_of, status_of};

    /// The code as the wire writes it, as `F6`.
    pub fn number(self) -> &'static str
        ensures { result.now ≡ number_of self }
    {
        NUMBERS[self as usize]
    }

    /// The name of the code, with which a refusal's message begins.
    pub fn name(self) -> &'static str
        ensures { result.now ≡ name_of self }
    {
        NAMES[self as usize]
    }

    /// The HTTP status of a reply that carries the code. A reply that accepts a part of a bundle
    /// may have another one beside it.
    pub fn status(self) -> u16
        ensures { result ≡ status_of self }
    {
        match self {
            Code::F1 | Code::F4 | Code::F20 | Code::F21 => 400,
            Code::F8 => 401,
            Code::F31 | Code::F40 => 403,
            Code::F6 => 404,
            Code::F7 => 405,
            Code::F3 => 413,
            Code::F5 => 415,
            Code::F2 => 431,
            Code::F23 => 503,
            _ => 409,
        }
    }
}

impl fmt::Debug for Code {
    fn fmt<W: fmt::Write>(&self, f: &mut fmt::Formatter<W>) -> fmt::Result {
        f.write_str(self.number())
    }
}

/// Why a request is refused: its code, and the detail that the code's message carries, empty
/// where it has none.
#[derive(Drop)]
pub struct Refusal {
    pub code: Code,
    pub detail: Items<u8>,
}
