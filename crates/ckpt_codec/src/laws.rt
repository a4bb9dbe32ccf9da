// Laws of the records' spellings.
ghost use Rattle.std.specs.Prelude.{◌≡◌, ◌≤◌, ◌++◌, [], List, length, ℕ, Option, None, All, FitsSigned};
ghost use Rattle.std.specs.Int.{w64};
ghost use Rattle.record.specs.Common.{ImageView, RecordView, with_tentative, with_permanent, without_tentative};
ghost use Rattle.record.specs.Common.{with_decision, with_confirmed, with_epoch, decided_by, MAX_NODES};
ghost use Rattle.ckpt_codec.specs.RecordText.{IsRecord, IsRecordText, items_of_record, image_fields};
ghost use Rattle.ckpt_codec.specs.Fields.{AreAllowed};
ghost use Rattle.ckpt_codec.specs.HeaderView.{HeaderView};
ghost use Rattle.ckpt_codec.specs.HeaderText.{record_with, IsHeaderTextIn, IsHeaderText, IsImageText, IsHeldText, IsApart};
ghost use Rattle.ckpt_codec.specs.Lengths.{record_length};
ghost use Rattle.ckpt_codec.specs.SizeLaws.{IsImageWithin, IsRecordWithin};
ghost use Rattle.record.specs.declared.record.TheConstants.{MAX_DECISIONS};
ghost use Rattle.ckpt_codec.specs.declared.lengths.TheConstants.{MAX_HEADER_BYTES, MAX_RECORD_BYTES, MAX_RETAINED_ITEMS};

/// No record's spelling begins another's: where one does, nothing follows it, and the records are one. So each text spells one
/// record at most.
pub fn no_spelling_begins_another()
    ensures { (kept other : RecordView) (spelling rest : List ℕ)
        → IsRecordText kept spelling → IsRecordText other (spelling ++ rest)
        → (rest ≡ []) × (other ≡ kept) }
{}

/// A record fits `MAX_RECORD_BYTES` whose images each have at most 64 processes, 64 variables of each, 256 channels, and
/// `MAX_RETAINED_ITEMS` items in all their logs.
pub fn bounded_records_fit()
    ensures { (kept : RecordView) (spelling : List ℕ)
        → IsRecordText kept spelling → IsRecordWithin MAX_RETAINED_ITEMS kept
        → length spelling ≤ MAX_RECORD_BYTES }
{}

/// Each move of a record within those bounds gives a record within them.
pub fn moves_keep_bounds()
    ensures tentative { (kept : RecordView) (initiator number : ℕ) (image : ImageView)
        → IsRecordWithin MAX_RETAINED_ITEMS kept → IsImageWithin MAX_RETAINED_ITEMS image
        → IsRecordWithin MAX_RETAINED_ITEMS (with_tentative initiator number image kept) }
    ensures permanent { (kept : RecordView) → IsRecordWithin MAX_RETAINED_ITEMS kept
        → IsRecordWithin MAX_RETAINED_ITEMS (with_permanent kept) }
    ensures without { (kept : RecordView) → IsRecordWithin MAX_RETAINED_ITEMS kept
        → IsRecordWithin MAX_RETAINED_ITEMS (without_tentative kept) }
    ensures decision { (kept : RecordView) (number : ℕ) (nodes : List ℕ) → length nodes ≤ MAX_NODES
        → length (decided_by number nodes kept.decisions) ≤ MAX_DECISIONS
        → IsRecordWithin MAX_RETAINED_ITEMS kept
        → IsRecordWithin MAX_RETAINED_ITEMS (with_decision number nodes kept) }
    ensures confirmed { (kept : RecordView) (number node : ℕ)
        → IsRecordWithin MAX_RETAINED_ITEMS kept
        → IsRecordWithin MAX_RETAINED_ITEMS (with_confirmed number node kept) }
    ensures epoch { (kept : RecordView) → IsRecordWithin MAX_RETAINED_ITEMS kept
        → IsRecordWithin MAX_RETAINED_ITEMS (with_epoch kept) }
{}

/// A move that lets an image go, or none, makes a record no longer.
pub fn moves_make_no_longer()
    ensures permanent { (kept : RecordView) → record_length (with_permanent kept) ≤ record_length kept }
    ensures without { (kept : RecordView)
        → record_length (without_tentative kept) ≤ record_length kept }
    ensures decision { (kept : RecordView) (number : ℕ)
        → record_length (with_decision number [] kept) ≤ record_length kept }
    ensures epoch { (kept : RecordView) → record_length (with_epoch kept) ≤ record_length kept }
{}

/// Of headers: what is written is read, none begins another, and each is short.
pub fn headers_are_spelled()
    ensures told { (version : ℕ) (h : HeaderView) (spelling : List ℕ)
        → IsHeaderTextIn version h spelling → IsHeaderText h spelling }
    ensures alone { (h other : HeaderView) (spelling rest : List ℕ)
        → IsHeaderText h spelling → IsHeaderText other (spelling ++ rest)
        → (rest ≡ []) × (other ≡ h) }
    ensures short { (h : HeaderView) (spelling : List ℕ) → IsHeaderText h spelling
        → length spelling ≤ MAX_HEADER_BYTES }
{}

/// Of images by themselves, or beside the same one: none begins another, and bytes that spell one beside another spell it by
/// itself where it may be.
pub fn images_are_spelled()
    ensures alone { (like : Option ImageView) (image other : ImageView) (spelling rest : List ℕ)
        → IsImageText like image spelling → IsImageText like other (spelling ++ rest)
        → (rest ≡ []) × (other ≡ image) }
    ensures same { (like second : Option ImageView) (image : ImageView) (spelling : List ℕ)
        → IsImageText like image spelling → AreAllowed (image_fields second image)
        → IsImageText second image spelling }
{}

/// A record apart: the bytes of a header and of the slots that it names spell one record at most, which may be written; each
/// record that may be written has such bytes, with its permanent image in either slot; and what is read of them is it.
pub fn records_stand_apart()
    ensures one { (kept other : RecordView) (slot place : ℕ) (header first second : List ℕ)
        → IsApart slot kept header first second → IsApart place other header first second
        → (place ≡ slot) × (other ≡ kept) }
    ensures written { (kept : RecordView) (slot : ℕ) (header first second : List ℕ)
        → IsApart slot kept header first second → IsRecord kept }
    ensures there { (kept : RecordView) (slot : ℕ) → slot ≤ 1 → IsRecord kept
        → All (FitsSigned w64) (items_of_record kept)
        → (header : List ℕ) × (first : List ℕ) × (second : List ℕ)
        × IsApart slot kept header first second }
    ensures joined { (h : HeaderView) (permanent : ImageView) (held : Option ImageView)
        (header first second : List ℕ) → IsHeaderText h header
        → IsImageText None permanent first → IsHeldText permanent h.tentative held second
        → IsApart h.slot (record_with h permanent held) header first second }
{}
