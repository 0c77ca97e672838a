//! Laws of what is written. Each function's contract is a law; its body is empty.
ghost use Rattle.x509_keys.specs.Request.Writer.Formats.{AlgorithmsEncode, AlternativeNamesEncode, KeysEncode};
ghost use Rattle.x509_keys.specs.Request.Writer.Formats.{NamesEncode};
ghost use Rattle.x509_keys.specs.Request.Writer.Formats.{RequestsAreWritten, RequestsEncode};
ghost use Rattle.x509_keys.specs.Request.Writer.Strict.{InfosAreRead, InfosAreWritten, SignedAreRead};

/// Written algorithms, keys, names and requests are read with the values that were put.
pub fn requests_encode()
    ensures algorithms { AlgorithmsEncode }
    ensures keys { KeysEncode }
    ensures names { NamesEncode }
    ensures alternative_names { AlternativeNamesEncode }
    ensures requests { RequestsEncode }
{}

/// If these values are read by DER, the octets are the written request: by the formats here and by `read_request`.
pub fn requests_are_written()
    ensures values { RequestsAreWritten }
    ensures strict { InfosAreWritten }
{}

/// A written request and its signed CSR are read with the values that were put, by the format of `read_request`.
pub fn requests_are_read()
    ensures infos { InfosAreRead }
    ensures signed { SignedAreRead }
{}
