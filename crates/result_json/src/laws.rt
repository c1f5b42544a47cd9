// What the pieces of a result's text make.
ghost use Rattle.result_json.specs.Pieces.{PiecesMakeTheText, RowsGoOn};

/// The text of a result is what stands in front of its rows, the rows, and its end.
pub fn pieces_make_the_text()
    ensures { PiecesMakeTheText }
{}

/// Rows and then more of them are the ones and then the others, with a comma between.
pub fn rows_go_on()
    ensures { RowsGoOn }
{}
