//! What holds of statements, and of rows that are left out.

ghost use Rattle.mrc_mig_rows.specs.Laws.{UnreadCarries};
ghost use Rattle.mrc_mig_rows.specs.Statements.{ReadIsStatement, StatementIsRead};

/// A statement at the front of tokens is found if and only if it stands there: what is found ends
/// with the first `;` outside of parentheses and braces, and what ends so is found.
pub fn statements_by_grammar()
    ensures found { ReadIsStatement }
    ensures only { StatementIsRead }
{}

/// Each part of a row that is left out which cannot be read counts as one that may carry rights.
pub fn unread_carries()
    ensures { UnreadCarries }
{}
