// The book laid out in one text: a directory, the rows of all tables, the required columns, where the slots of the keys begin, and the links of each table.
#![tactic(auto)]

ghost use Rattle.std.specs.Prelude.{◌≡◌, ◌++◌, ◌+◌, ◌≤◌, length, take};
ghost use Rattle.book.specs.Book.{mz_tab};
ghost use Rattle.book.specs.Text.{FRONT as front-end, LINKS as all_end, tables_of, all_rows, all_wanted, all_starts, HasDirectory, IsBook, directory_text, laid_out};

use book::directory::{links_at, rows_at};
use book_links::link;

// The bytes of the directory.
pub const DIRECTORY: usize = 214;

// The directory of the book: sections 1 to 4, and twenty demands.
pub fn directory() -> [u8; DIRECTORY]
    ensures value { result ≡ directory_text }
    ensures has_directory { HasDirectory result }
{
    *b"\
    \x01\x04\
    MTDMTD\xd6\x00\xd8\x1f\x3c\x21\
    PRHPRT\xb4\x0d\xd8\x1f\x79\x22\
    PEHPEP\x58\x12\x0c\x20\x8f\x23\
    PSHPSM\x90\x16\x75\x20\xa3\x24\
    SMHSML\xc8\x1a\xab\x20\xb7\x25\
    \x14\x20\x20\x20\x20\x20\xd8\x1f\xc0\x20\xcf\x26\
    \x01\x00\x00*\x00\x04\x15\
    \x02\x00\x01*\x00\x04\x15\
    \x03\x00\x02*\x00\x04\x15\
    \x04\x00\x05*\x00\x04\x15\
    \x05\x00\x10*\x00\x04\x15\
    \x64\x00\x3aq\x00\x01\x16\
    \xc8\x00\x3bA\x00\x02\x16\
    \x2c\x01\x14q\x00\x02\x16\
    \x90\x01\x21C\x00\x04\x16\
    \xf4\x01\x22+\x01\x04\x16\
    \x58\x02\x23+\x02\x04\x16\
    \xbc\x02\x24+\x03\x04\x16\
    \x20\x03\x25+\x04\x04\x16\
    \x84\x03\x26+\x00\x04\x16\
    \xe8\x03\x27+\x00\x04\x16\
    \x4c\x04\x28Q\x00\x04\x16\
    \xb0\x04\x29q\x01\x04\x16\
    \x14\x05\x2aq\x02\x04\x16\
    \x78\x05\x2bq\x04\x04\x16\
    \xdc\x05\x35q\x00\x01\x16"
}

// Where the rows, the required columns, the starts of the keys' slots and the links end.
const ROWS: usize = 8152;

const WANTED: usize = 8384;

const LINKS: usize = 9935;

// How many tables there are: the keys, and the columns of each section.
const TABLES: usize = 5;

// Copies bytes into a text, from `at` on.
fn lay(text: &mut [u8], at: usize, bytes: &[u8])
    requires { at + length bytes.now ≤ length text.old }
    ensures text_len_unchanged { length text.new ≡ length text.old }
    ensures text_after { take (at + length bytes.now) text.new ≡ take at text.old ++ bytes.now }
{
    text[at..at + bytes.len()].copy_from_slice(bytes);
}

// The links of each table, by what stands in front of them.
fn link_tables(text: &mut [u8], front: &[u8])
    requires text_len { length text.old ≡ all_end }
    requires text_value { take front-end text.old ≡ laid_out }
    requires front_value { front.now ≡ text.old }
    ensures { IsBook text.new }
{
    for k in 0..TABLES {
        let from = rows_at(front, k);
        let to = rows_at(front, k + 1);
        let at = links_at(front, k);
        link(text, at, &front[from..to]);
    }
}

// The whole book. A caller holds it and lends it to the look-ups.
pub fn book() -> [u8; LINKS]
    ensures { IsBook result }
{
    let mut text = [0u8; LINKS];
    let head = directory();
    lay(&mut text, 0, &head);
    let rows = rows();
    lay(&mut text, DIRECTORY, &rows);
    let wanted = wanted();
    lay(&mut text, ROWS, &wanted);
    let starts = starts();
    lay(&mut text, WANTED, &starts);
    let front = text;
    link_tables(&mut text, &front);
    text
}

// The rows of all tables.
fn rows() -> [u8; 7938]
    ensures { result ≡ all_rows (tables_of mz_tab) }
{
    *BOOK
}

// The required columns of the sections, each behind the letter that says of which files it is asked, with tabs between them.
fn wanted() -> [u8; 232]
    ensures { result ≡ all_wanted (tables_of mz_tab) }
{
    *b"\
    * accession\t* description\t* database\t* search_engine\
    * sequence\t* accession\t* charge\t* mass_to_charge\tq modifications\tq retention_time\tq retention_time_window\
    * sequence\t* PSM_ID\t* accession\t* charge\t* spectra_ref\
    * identifier\t* charge"
}

// Where the slots of each key begin, and where those of the last end: each key has as many as its indices give names, 1, 64 or 4,096.
fn starts() -> [u8; 124]
    ensures { result ≡ all_starts mz_tab }
{
    *b"\
    \x00\x00\x01\x00\x02\x00\x03\x00\x04\x00\x05\x00\x06\x00\x06\x10\
    \x46\x10\x86\x10\xc6\x10\x06\x11\x46\x11\x86\x11\xc6\x11\x06\x12\
    \x46\x12\x86\x12\xc6\x12\xc6\x22\xc6\x32\x06\x33\x46\x33\x86\x33\
    \xc6\x33\x06\x34\x07\x34\x08\x34\x09\x34\x0a\x34\x4a\x34\x8a\x34\
    \x8a\x44\xca\x44\x0a\x45\x4a\x45\x8a\x45\xca\x45\x0a\x46\x4a\x46\
    \x8a\x46\x8b\x46\x8c\x46\x8d\x46\x8e\x46\xce\x46\x0e\x47\x4e\x47\
    \x8e\x47\x8e\x57\x8e\x67\x8e\x77\x8e\x87\x8e\x97\xce\x97\xce\xa7\
    \x0e\xa8\x0f\xa8\x4f\xa8\x8f\xa8\xcf\xa8\x0f\xa9"
}

// The 61 metadata keys, then the columns of the sections: 22, 20, 20 and 24.
const BOOK: &[u8; 7938] = b"\
    v- mzTab-version                                      \
    m- mzTab-mode                                         \
    t- mzTab-type                                         \
    T- mzTab-ID                                           \
    T- title                                              \
    T- description                                        \
    T- software[n]-setting[n]                             \
    T- publication[n]                                     \
    T- contact[n]-name                                    \
    T- contact[n]-affiliation                             \
    T- contact[n]-email                                   \
    T- uri[n]                                             \
    T- fixed_mod[n]-site                                  \
    T- fixed_mod[n]-position                              \
    T- variable_mod[n]-site                               \
    T- variable_mod[n]-position                           \
    T- ms_run[n]-location                                 \
    T- sample[n]-description                              \
    T- assay[n]-quantification_mod[n]-site                \
    T- assay[n]-quantification_mod[n]-position            \
    T- study_variable[n]-description                      \
    T- cv[n]-label                                        \
    T- cv[n]-full_name                                    \
    T- cv[n]-version                                      \
    T- cv[n]-url                                          \
    T- colunit-protein                                    \
    T- colunit-peptide                                    \
    T- colunit-psm                                        \
    T- colunit-small_molecule                             \
    P- instrument[n]-name                                 \
    P- instrument[n]-source                               \
    P- instrument[n]-analyzer[n]                          \
    P- instrument[n]-detector                             \
    P- software[n]                                        \
    P- protein_search_engine_score[n]                     \
    P- peptide_search_engine_score[n]                     \
    P- psm_search_engine_score[n]                         \
    P- smallmolecule_search_engine_score[n]               \
    P- fixed_mod[n]                                       \
    P- variable_mod[n]                                    \
    P- quantification_method                              \
    P- protein-quantification_unit                        \
    P- peptide-quantification_unit                        \
    P- small_molecule-quantification_unit                 \
    P- ms_run[n]-format                                   \
    P- ms_run[n]-id_format                                \
    P- ms_run[n]-fragmentation_method                     \
    P- custom[n]                                          \
    P- sample[n]-species[n]                               \
    P- sample[n]-tissue[n]                                \
    P- sample[n]-cell_type[n]                             \
    P- sample[n]-disease[n]                               \
    P- sample[n]-custom[n]                                \
    P- assay[n]-quantification_reagent                    \
    P- assay[n]-quantification_mod[n]                     \
    Q- sample_processing[n]                               \
    Q- false_discovery_rate                               \
    rS assay[n]-sample_ref                                \
    rR assay[n]-ms_run_ref                                \
    lA study_variable[n]-assay_refs                       \
    lS study_variable[n]-sample_refs                      \
    K- accession                                          \
    T- description                                        \
    T- species                                            \
    T- database                                           \
    T- database_version                                   \
    T- ambiguity_members                                  \
    T- modifications                                      \
    T- uri                                                \
    T- go_terms                                           \
    W- taxid                                              \
    WR num_psms_ms_run[n]                                 \
    WR num_peptides_distinct_ms_run[n]                    \
    WR num_peptides_unique_ms_run[n]                      \
    R- reliability                                        \
    D- protein_coverage                                   \
    D- best_search_engine_score[n]                        \
    DR search_engine_score[n]_ms_run[n]                   \
    DA protein_abundance_assay[n]                         \
    DV protein_abundance_study_variable[n]                \
    DV protein_abundance_stdev_study_variable[n]          \
    DV protein_abundance_std_error_study_variable[n]      \
    Q- search_engine                                      \
    T- accession                                          \
    T- database                                           \
    T- database_version                                   \
    T- modifications                                      \
    T- uri                                                \
    K- sequence                                           \
    T- spectra_ref                                        \
    W- charge                                             \
    R- reliability                                        \
    U- unique                                             \
    D- mass_to_charge                                     \
    D- best_search_engine_score[n]                        \
    DR search_engine_score[n]_ms_run[n]                   \
    DA peptide_abundance_assay[n]                         \
    DV peptide_abundance_study_variable[n]                \
    DV peptide_abundance_stdev_study_variable[n]          \
    DV peptide_abundance_std_error_study_variable[n]      \
    L- retention_time                                     \
    N- retention_time_window                              \
    Q- search_engine                                      \
    T- accession                                          \
    T- database                                           \
    T- database_version                                   \
    T- modifications                                      \
    T- uri                                                \
    K- sequence                                           \
    K- PSM_ID                                             \
    T- spectra_ref                                        \
    T- pre                                                \
    T- post                                               \
    T- start                                              \
    T- end                                                \
    W- charge                                             \
    R- reliability                                        \
    U- unique                                             \
    D- exp_mass_to_charge                                 \
    D- calc_mass_to_charge                                \
    D- search_engine_score[n]                             \
    L- retention_time                                     \
    Q- search_engine                                      \
    T- description                                        \
    T- species                                            \
    T- database                                           \
    T- database_version                                   \
    T- modifications                                      \
    T- uri                                                \
    T- spectra_ref                                        \
    T- identifier                                         \
    T- chemical_formula                                   \
    T- smiles                                             \
    T- inchi_key                                          \
    T- reliability                                        \
    W- taxid                                              \
    W- charge                                             \
    D- exp_mass_to_charge                                 \
    D- calc_mass_to_charge                                \
    D- best_search_engine_score[n]                        \
    DR search_engine_score[n]_ms_run[n]                   \
    DA smallmolecule_abundance_assay[n]                   \
    DV smallmolecule_abundance_study_variable[n]          \
    DV smallmolecule_abundance_stdev_study_variable[n]    \
    DV smallmolecule_abundance_std_error_study_variable[n]\
    L- retention_time                                     \
    Q- search_engine                                      ";
