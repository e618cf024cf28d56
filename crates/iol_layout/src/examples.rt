//! Facts with values of docs/FORMATS.md, computed by the prover: a number that is wrong both in a definition and in the
//! code is refused here.

ghost use Rattle.std.specs.Prelude.{◌≡◌, ◌++◌, ◌==◌, if◌then◌else◌, [], ◌∷◌, drop, length, replicate, map, take, true, false};
ghost use Rattle.iol_types.specs.Command.{Configure};
ghost use Rattle.iol_types.specs.Examples.{example_config};
ghost use Rattle.iol_record.specs.Examples.{full_port};
ghost use Rattle.iol_record.specs.Record.{port_octets};
ghost use Rattle.iol_record.specs.declared.version.Version.TheVariants.{One, Two};
ghost use Rattle.iol_layout.specs.Body.{batch_of, body_octets, commands_of, fits, head_of, slots_of};
ghost use Rattle.iol_layout.specs.Examples.{two_by_four, first_body, first_body_of_one, header_with};
ghost use Rattle.iol_layout.specs.Geometry.{IsGeometry, geometry_of, geometry_octets, given_up};
ghost use Rattle.iol_layout.specs.Header.{header_of, header_octets, is_sound, version_named};
ghost use Rattle.iol_disk.specs.Gate.{open_gate, closed_gate};
ghost use Rattle.iol_layout.specs.Meaning.{unformatted, too_small, damaged, geometry_in, greatest};
ghost use Rattle.iol_layout.specs.Octets.{sectors_reached};
ghost use Rattle.iol_layout.specs.Layout.{laid_out, layout_of, renewed, total, gate_at, header_at, port_at, slot_at, body_at};
ghost use Rattle.iol_layout.specs.declared.body.TheConstants.{MOST_COMMANDS, MOST_RECORD_OCTETS, BODY_HEAD_OCTETS};
ghost use Rattle.iol_layout.specs.declared.header.TheConstants.{LAST_NUMBER};

use crate::area::Area;
use crate::geometry::{DISK_GATE, GEOMETRY};

/// A geometry has 1 to 32 ports and 1 to 256 slots, and keeps at least one slot in version 2.
pub fn geometries()
    ensures least { IsGeometry (record { ports = 1; slots = 2 }) }
    ensures least_of_32 { IsGeometry (record { ports = 32; slots = 17 }) }
    ensures most { IsGeometry (record { ports = 32; slots = 256 }) }
    ensures no_port { ¬ IsGeometry (record { ports = 0; slots = 4 }) }
    ensures a_33rd_port { ¬ IsGeometry (record { ports = 33; slots = 4 }) }
    ensures no_slot { ¬ IsGeometry (record { ports = 2; slots = 0 }) }
    ensures a_257th_slot { ¬ IsGeometry (record { ports = 2; slots = 257 }) }
    ensures no_slot_of_two { ¬ IsGeometry (record { ports = 2; slots = 1 }) }
    ensures no_slot_of_32 { ¬ IsGeometry (record { ports = 32; slots = 16 }) }
{}

/// The places of 2 ports and 4 slots in version 1, on 178 sectors.
pub fn places()
    ensures sectors { total (laid_out One two_by_four) ≡ 178 }
    ensures geometry { GEOMETRY ≡ 0 }
    ensures disk_gate { DISK_GATE ≡ 1 }
    ensures gates { map (gate_at (laid_out One two_by_four)) (Area.A ∷ Area.B ∷ []) ≡ 2 ∷ 90 ∷ [] }
    ensures headers { map (header_at (laid_out One two_by_four)) (Area.A ∷ Area.B ∷ []) ≡ 3 ∷ 91 ∷ [] }
    ensures ports { map (port_at (laid_out One two_by_four) Area.A) (0 ∷ 1 ∷ []) ≡ 4 ∷ 13 ∷ [] }
    ensures slots { map (slot_at (laid_out One two_by_four) Area.A) (0 ∷ 1 ∷ 2 ∷ 3 ∷ []) ≡ 22 ∷ 39 ∷ 56 ∷ 73 ∷ [] }
    ensures bodies { map (body_at (laid_out One two_by_four) Area.A 0) (0 ∷ 15 ∷ []) ≡ 23 ∷ 38 ∷ [] }
    // A body over the slots 1 to 3 leaves out the gates of slots 2 and 3, which are sectors 56 and 73.
    ensures longer { map (body_at (laid_out One two_by_four) Area.A 1) (0 ∷ 15 ∷ 16 ∷ 31 ∷ 32 ∷ []) ≡ 40 ∷ 55 ∷ 57 ∷ 72 ∷ 74 ∷ [] }
    ensures largest { total (laid_out One (record { ports = 32; slots = 256 })) ≡ 9286 }
{}

/// The same in version 2, whose port records have 17 sectors: the areas are in the same places, and an area gives up a slot for
/// 2 ports, and 16 for 32.
pub fn places_of_two()
    ensures given_up { map (given_up Two) (1 ∷ 2 ∷ 3 ∷ 32 ∷ []) ≡ 1 ∷ 1 ∷ 2 ∷ 16 ∷ [] }
    ensures renewed { renewed (laid_out One two_by_four) ≡ layout_of two_by_four }
    ensures sectors { total (layout_of two_by_four) ≡ 178 }
    ensures gates { map (gate_at (layout_of two_by_four)) (Area.A ∷ Area.B ∷ []) ≡ 2 ∷ 90 ∷ [] }
    ensures ports { map (port_at (layout_of two_by_four) Area.A) (0 ∷ 1 ∷ []) ≡ 4 ∷ 21 ∷ [] }
    ensures slots { map (slot_at (layout_of two_by_four) Area.A) (0 ∷ 1 ∷ 2 ∷ []) ≡ 38 ∷ 55 ∷ 72 ∷ [] }
    ensures bodies { map (body_at (layout_of two_by_four) Area.A 1) (0 ∷ 15 ∷ 16 ∷ []) ≡ 56 ∷ 71 ∷ 73 ∷ [] }
    ensures kept { (layout_of (record { ports = 32; slots = 256 })).slots ≡ 240 }
    // The largest record of a port, with two sets that count 4,096, reaches all 17 sectors.
    ensures full_record { sectors_reached (length (port_octets Two full_port)) ≡ 17 }
    ensures largest { total (layout_of (record { ports = 32; slots = 256 })) ≡ 9286 }
{}

/// Sector 0 for 2 ports and 4 slots: IOLS, version 1, 2 ports, 4 slots, 16 sectors in a body.
#[tactic(auto, unfolding(crate::specs::Geometry::geometry_of, crate::specs::Octets::padded))]
pub fn sector_0()
    ensures written { geometry_octets two_by_four
        ≡ (0x49 ∷ 0x4F ∷ 0x4C ∷ 0x53 ∷ 0x01 ∷ 0x02 ∷ 0x00 ∷ 0x04 ∷ 0x00 ∷ 0x10 ∷ []) ++ replicate 502 0 }
    ensures read { geometry_of ((0x49 ∷ 0x4F ∷ 0x4C ∷ 0x53 ∷ 0x01 ∷ 0x20 ∷ 0x01 ∷ 0x00 ∷ 0x00 ∷ 0x10 ∷ []) ++ replicate 502 7)
        ≡ Some (record { ports = 32; slots = 256 }) }
    ensures other_mark { geometry_of ((0x49 ∷ 0x4F ∷ 0x4C ∷ 0x54 ∷ 0x01 ∷ 0x02 ∷ 0x00 ∷ 0x04 ∷ 0x00 ∷ 0x10 ∷ []) ++ replicate 502 0)
        ≡ None }
    ensures other_version { geometry_of ((0x49 ∷ 0x4F ∷ 0x4C ∷ 0x53 ∷ 0x02 ∷ 0x02 ∷ 0x00 ∷ 0x04 ∷ 0x00 ∷ 0x10 ∷ []) ++ replicate 502 0)
        ≡ None }
    ensures other_body { geometry_of ((0x49 ∷ 0x4F ∷ 0x4C ∷ 0x53 ∷ 0x01 ∷ 0x02 ∷ 0x00 ∷ 0x04 ∷ 0x00 ∷ 0x11 ∷ []) ++ replicate 502 0)
        ≡ None }
    ensures larger_body { geometry_of ((0x49 ∷ 0x4F ∷ 0x4C ∷ 0x53 ∷ 0x01 ∷ 0x02 ∷ 0x00 ∷ 0x04 ∷ 0x01 ∷ 0x10 ∷ []) ++ replicate 502 0)
        ≡ None }
{}

/// The header of an area in its first epoch, and which headers are sound: in version 2 an epoch may be ahead by one more.
#[tactic(auto, unfolding(crate::specs::Header::header_of, crate::specs::Octets::padded))]
pub fn headers()
    ensures written { header_octets Two 1 258
        ≡ (0 ∷ 0 ∷ 0 ∷ 0 ∷ 0 ∷ 0 ∷ 0 ∷ 1 ∷ 0 ∷ 0 ∷ 0 ∷ 0 ∷ 0 ∷ 0 ∷ 1 ∷ 2 ∷ 2 ∷ []) ++ replicate 495 0 }
    ensures of_one { header_octets One 1 258
        ≡ (0 ∷ 0 ∷ 0 ∷ 0 ∷ 0 ∷ 0 ∷ 0 ∷ 1 ∷ 0 ∷ 0 ∷ 0 ∷ 0 ∷ 0 ∷ 0 ∷ 1 ∷ 2 ∷ []) ++ replicate 496 0 }
    ensures read { header_of ((0 ∷ 0 ∷ 0 ∷ 0 ∷ 0 ∷ 0 ∷ 0 ∷ 1 ∷ 0 ∷ 0 ∷ 0 ∷ 0 ∷ 0 ∷ 0 ∷ 1 ∷ 2 ∷ 0 ∷ []) ++ replicate 495 7)
        ≡ header_with One 1 258 }
    ensures read_of_two { header_of ((0 ∷ 0 ∷ 0 ∷ 0 ∷ 0 ∷ 0 ∷ 0 ∷ 1 ∷ 0 ∷ 0 ∷ 0 ∷ 0 ∷ 0 ∷ 0 ∷ 1 ∷ 2 ∷ 2 ∷ []) ++ replicate 495 7)
        ≡ header_with Two 1 258 }
    ensures of_no_version { header_of ((0 ∷ 0 ∷ 0 ∷ 0 ∷ 0 ∷ 0 ∷ 0 ∷ 1 ∷ 0 ∷ 0 ∷ 0 ∷ 0 ∷ 0 ∷ 0 ∷ 1 ∷ 2 ∷ 1 ∷ []) ++ replicate 495 0)
        ≡ record { epoch = 1; base = 258; version = None } }
    ensures named { map version_named (0 ∷ 1 ∷ 2 ∷ 3 ∷ 255 ∷ []) ≡ Some One ∷ None ∷ Some Two ∷ None ∷ None ∷ [] }
    ensures first { is_sound (header_with One 1 0) ≡ true }
    ensures never_used { is_sound (header_with One 0 0) ≡ false }
    ensures too_new { is_sound (header_with One 2 0) ≡ false }
    ensures migrated { is_sound (header_with Two 2 0) ≡ true }
    ensures too_new_for_two { is_sound (header_with Two 3 0) ≡ false }
    ensures last { is_sound (header_with Two 1 4611686018427387904) ≡ true }
    ensures over { is_sound (header_with Two 1 4611686018427387905) ≡ false }
    ensures unknown { is_sound (record { epoch = 1; base = 0; version = None }) ≡ false }
{}

/// The limits of batches: 64 commands, 8,170 octets of records in one slot after a head of 22, numbers up to 2^62.
pub fn limits()
    ensures commands { MOST_COMMANDS ≡ 64 }
    ensures records { MOST_RECORD_OCTETS ≡ 8170 }
    ensures head { BODY_HEAD_OCTETS ≡ 22 }
    ensures numbers { LAST_NUMBER ≡ 4611686018427387904 }
    ensures first_head { fits (record { epoch = 1; first = 1; count = 1; octets = 10 }) 1 1 ≡ true }
    ensures no_command { fits (record { epoch = 1; first = 1; count = 0; octets = 10 }) 1 1 ≡ false }
    ensures last_count { fits (record { epoch = 1; first = 1; count = 64; octets = 8170 }) 1 1 ≡ true }
    ensures a_65th_command { fits (record { epoch = 1; first = 1; count = 65; octets = 10 }) 1 1 ≡ false }
    ensures one_slot { slots_of 8170 ≡ 1 }
    ensures two_slots { slots_of 8171 ≡ 2 }
    ensures all_slots { slots_of 2097130 ≡ 256 }
    ensures last_number { fits (record { epoch = 1; first = 4611686018427387904; count = 1; octets = 10 }) 1 4611686018427387904 ≡ true }
    ensures past_the_last { fits (record { epoch = 1; first = 4611686018427387904; count = 2; octets = 20 }) 1 4611686018427387904 ≡ false }
    ensures other_epoch { fits (record { epoch = 2; first = 1; count = 1; octets = 10 }) 1 1 ≡ false }
    ensures other_first { fits (record { epoch = 1; first = 2; count = 1; octets = 10 }) 1 1 ≡ false }
{}

/// The body of the first slot with one Configure: epoch 1, number 1, one command, 11 octets, the record, and zeros.
#[tactic(auto, unfolding(crate::specs::Body::body_octets, crate::specs::Octets::padded))]
pub fn the_first_body()
    ensures { body_octets 1 1 (Configure 1 example_config ∷ []) ≡ first_body }
{}

/// What is read of a body: its head, each number octet by octet, and its commands, whose records fill the octets exactly.
#[tactic(auto, unfolding(crate::specs::Body::head_of, crate::specs::Body::batch_of, iol_record::specs::Reading::command_at, iol_record::specs::Reading::arguments_at, iol_record::specs::Reading::config_at, iol_record::specs::Reading::label_at))]
pub fn bodies_read()
    ensures head { head_of (0 ∷ 1 ∷ 2 ∷ 3 ∷ 4 ∷ 5 ∷ 6 ∷ 7 ∷ 8 ∷ 9 ∷ 10 ∷ 11 ∷ 12 ∷ 13 ∷ 14 ∷ 15 ∷ 16 ∷ 17 ∷ 18 ∷ 19 ∷ 20 ∷ 21 ∷ [])
        ≡ record { epoch = 283686952306183; first = 579005069656919567; count = 4113; octets = 303240213 } }
    ensures batch { batch_of Two 1 1 first_body ≡ Some (Configure 1 example_config ∷ []) }
    ensures batch_of_one { batch_of One 1 1 first_body_of_one ≡ Some (Configure 1 example_config ∷ []) }
    ensures another_version { batch_of Two 1 1 first_body_of_one ≡ None }
    ensures a_command_less { commands_of Two 0 (drop 22 (take 33 first_body)) ≡ None }
    ensures an_octet_more { commands_of Two 1 (drop 22 (take 34 first_body)) ≡ None }
    ensures a_command_more { commands_of Two 2 (drop 22 (take 33 first_body)) ≡ None }
{}

/// Why an image means no state. The disk has no open gate, no geometry, or fewer sectors than its geometry needs, or an area keeps
/// no slot in version 2. Or no area is open, both are open under one epoch, or the header in use is out of its bounds.
#[tactic(auto, unfolding(crate::specs::Geometry::geometry_of, crate::specs::Octets::padded, iol_disk::specs::Gate::is_open, iol_disk::specs::Gate::open_gate, iol_disk::specs::Gate::closed_gate))]
pub fn first_causes()
    ensures one_sector { geometry_in 1 (λ i. open_gate) ≡ Err unformatted }
    ensures closed_disk { geometry_in 178 (λ i. closed_gate) ≡ Err unformatted }
    ensures no_geometry { geometry_in 2 (λ i. open_gate) ≡ Err (damaged 0) }
    ensures smaller_disk { geometry_in 177 (λ i. if i == 0 then geometry_octets two_by_four else open_gate) ≡ Err (damaged 0) }
    ensures large_enough { geometry_in 178 (λ i. if i == 0 then geometry_octets two_by_four else open_gate) ≡ Ok two_by_four }
    ensures no_slot { geometry_in 1000 (λ i. if i == 0 then geometry_octets (record { ports = 2; slots = 1 }) else open_gate)
        ≡ Err too_small }
    ensures smaller_without_a_slot { geometry_in 75 (λ i. if i == 0 then geometry_octets (record { ports = 2; slots = 1 }) else open_gate)
        ≡ Err (damaged 0) }
    ensures no_area { greatest (layout_of two_by_four) None None ≡ Err (damaged 2) }
    ensures one_epoch { greatest (layout_of two_by_four) (Some (header_with Two 1 0)) (Some (header_with Two 1 5))
        ≡ Err (damaged 91) }
    ensures one_epoch_unsound { greatest (layout_of two_by_four) (Some (record { epoch = 1; base = 0; version = None }))
        (Some (header_with Two 1 5)) ≡ Err (damaged 91) }
    ensures newer_b { greatest (layout_of two_by_four) (Some (header_with One 1 0)) (Some (header_with Two 2 1))
        ≡ Ok (record { area = Area.B; header = header_with Two 2 1 }) }
    ensures unsound_a { greatest (layout_of two_by_four) (Some (header_with Two 3 0)) (Some (header_with Two 2 1))
        ≡ Err (damaged 3) }
    ensures unsound_b { greatest (layout_of two_by_four) None (Some (header_with Two 0 0)) ≡ Err (damaged 91) }
    ensures no_version { greatest (layout_of two_by_four) (Some (record { epoch = 1; base = 0; version = None })) None ≡ Err (damaged 3) }
    // A header that is not chosen may name no version.
    ensures no_version_beside { greatest (layout_of two_by_four) (Some (record { epoch = 1; base = 0; version = None }))
        (Some (header_with Two 2 1)) ≡ Ok (record { area = Area.B; header = header_with Two 2 1 }) }
{}
