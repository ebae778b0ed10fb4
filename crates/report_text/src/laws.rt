//! Laws of the text, for all answers.
ghost use Rattle.std.specs.Prelude.{◌≡◌, ℕ, List};
ghost use Rattle.std.specs.List.{All};
ghost use Rattle.plain_cord.specs.declared.script.Session.{Session as Session_value};
ghost use Rattle.plain_cord.specs.declared.reply.Reply.{Reply as Reply_value};
ghost use Rattle.plain_cord.specs.declared.reply.Book.{Book as Book_value};
ghost use Rattle.plain_cord.specs.declared.history.Entry.{Entry as Entry_value};
ghost use Rattle.report_text.specs.Replies.{reply_text};
ghost use Rattle.plain_cord.specs.Runs.{IsPlainRun};
ghost use Rattle.report_text.specs.Outputs.{output_text, IsPrintable};
ghost use Rattle.report_text.specs.ShortNames.{HasShortNames};
ghost use Rattle.report_text.specs.Readable.{IsNumber, IsReadableReply, AreInLine, AreReadable, IsReadableHistory, IsReadable};

/// Different answers have different texts.
pub fn different_replies_print_differently()
    ensures { (reply : Reply_value) (other : Reply_value) → IsReadableReply reply → IsReadableReply other
        → reply_text reply ≡ reply_text other → reply ≡ other }
{}

/// Different books of the same sessions never print the same, whatever the histories and the pool are.
pub fn different_books_print_differently()
    ensures { (sessions : List Session_value) (books : List Book_value) (others : List Book_value) (history : List Entry_value)
        (later : List Entry_value) (left : ℕ) (rest : ℕ) (pool : ℕ)
        → AreReadable sessions books → AreReadable sessions others
        → output_text sessions books history left pool ≡ output_text sessions others later rest pool → books ≡ others }
{}

/// Different histories of the same sessions never print the same, whatever the answers in front of them are, as long as
/// no name in them has a newline.
pub fn different_histories_print_differently()
    ensures { (sessions : List Session_value) (books : List Book_value) (others : List Book_value) (history : List Entry_value)
        (later : List Entry_value) (left : ℕ) (rest : ℕ) (pool : ℕ)
        → AreInLine sessions books → AreInLine sessions others → IsReadableHistory sessions history → IsReadableHistory sessions later
        → IsNumber left → IsNumber rest
        → output_text sessions books history left pool ≡ output_text sessions others later rest pool → (history ≡ later) × (left ≡ rest) }
{}

/// Different runs of the same sessions never print the same: the text tells the books, the history, and how many of
/// the pool's numbers are left in use.
pub fn different_runs_print_differently()
    ensures { (sessions : List Session_value) (books : List Book_value) (others : List Book_value) (history : List Entry_value)
        (later : List Entry_value) (left : ℕ) (rest : ℕ) (pool : ℕ)
        → IsReadable sessions books history → IsReadable sessions others later → IsNumber left → IsNumber rest
        → output_text sessions books history left pool ≡ output_text sessions others later rest pool
        → (books ≡ others) × (history ≡ later) × (left ≡ rest) }
{}

/// Every plain run of sessions with short names can be written.
pub fn plain_runs_are_printable()
    ensures { (sessions : List Session_value) (books : List Book_value) (history : List Entry_value) → All HasShortNames sessions
        → IsPlainRun sessions books history → IsPrintable sessions books history }
{}
