//! A law of lines. Its function's contract is the law; its body is empty.
ghost use Rattle.der_print.specs.Laws.{LinesFit};

/// If the style limits the columns, a line has no more characters, besides the line end and the codes of dim and bold
/// text.
pub fn lines_fit()
    ensures { LinesFit }
{}
