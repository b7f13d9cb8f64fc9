//! What holds of all transcripts of the same bytes. The function does nothing: it asks for a theorem, and
//! calls those that it follows from.
ghost use Rattle.transcript.specs.Laws.{OneText};

/// To the same bytes one text is printed: whatever body meets the contracts of `transcript_of` and `text`,
/// the same bytes give the same text.
pub fn one_text()
    ensures { OneText }
{
    sheet::one_content();
    sheet::one_answer();
    sheet::lawful_or_ground();
    batch::one_end();
}
