//! Laws of messages. Each function's contract is a law; its body is empty.
ghost use Rattle.messages.specs.Snmp.Writer.Formats.{RequestsAreWritten, RequestsEncode, ResponsesAreWritten, ResponsesEncode};

/// A written message is read with the values that were put.
pub fn messages_encode()
    ensures requests { RequestsEncode }
    ensures responses { ResponsesEncode }
{}

/// If these values are read by DER, the octets are the written message.
pub fn messages_are_written()
    ensures requests { RequestsAreWritten }
    ensures responses { ResponsesAreWritten }
{}
